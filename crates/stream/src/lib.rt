// The day sheet in pieces: rows in, rows out, whatever the input's length.
#![tactic(auto)]

pub mod feed;
