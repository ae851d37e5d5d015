//! A run: a list of choices from the fresh state on, and what it prints.
#![tactic(auto)]

mod lines;
pub mod printing;
