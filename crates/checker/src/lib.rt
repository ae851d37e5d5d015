//! The check: the rules asked of every part of a laid-out file, and of a text as a whole.
#![tactic(auto)]

pub mod check;
mod effect;
mod module;
mod scope;
mod setting;
mod typing;
