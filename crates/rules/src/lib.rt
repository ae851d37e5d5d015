//! The rules of types, effects and cooperation, refusals 8 to 13: one function for each rule.
#![tactic(auto)]

pub mod expression;
pub mod finding;
pub mod start;
pub mod statement;
