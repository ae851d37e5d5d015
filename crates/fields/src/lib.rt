//! Refusals 4 and 5: the header, with a count of the events; then, in one pass over the lines, the
//! kind and the fields of each frame.
#![tactic(auto)]

pub mod fault_search;
pub mod field;
mod lines;
mod tally;
