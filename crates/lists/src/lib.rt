//! The schedulers' lists in the words that a caller lends: read, changed, and an instant's end.
#![tactic(auto)]

pub mod list;
pub mod wait;
