// The curve, `curve/` of the original without its fees (crate `fees`): what a swap gives and asks, and what LP tokens are worth.
#![tactic(auto)]

pub mod constant_product;
