// The stepper: on any text and any lent words, the fresh state, one step, many steps.
#![tactic(auto)]

pub mod answer;
pub mod batch;
pub mod file;
mod instant;
mod party;
pub mod step;
mod turn;
pub mod valid;
