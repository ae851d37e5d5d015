// The text: digits, lines, frames, and refusals 1 to 3.
#![tactic(auto)]

pub mod digit;
pub mod line;
pub mod reading;
