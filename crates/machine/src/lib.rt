//! The stepper: values, their words, and what evaluating an expression answers. Its state, steps
//! and lent words are definitions, in specs/.
#![tactic(auto)]

pub mod offset;
pub mod value;
pub mod word;
