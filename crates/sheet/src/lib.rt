// The day sheet: rows in, rows out.
#![tactic(auto)]

mod call;
pub mod turn;
