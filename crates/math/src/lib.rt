// The arithmetic of the pool, the Rust's utils/math.rs: quotients rounded down and up. Its whole root is crate `root`; shares at a rate, which
// take no long division, are crate `share`.
#![tactic(auto)]

pub mod ratio;
