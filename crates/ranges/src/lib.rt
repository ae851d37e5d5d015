//! Whether the words that a caller lends are a state of the file (14).
#![tactic(auto)]

pub mod range;
