// Rows of the day sheet: numbers in columns, read and written.
#![tactic(auto)]

pub mod row;
