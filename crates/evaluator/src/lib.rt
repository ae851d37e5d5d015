//! The evaluator: expressions on lent words, a word for each cell.
#![tactic(auto)]

pub mod evaluation;
