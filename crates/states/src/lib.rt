//! Threads and events in the lent words: the fresh state, and what a step reads and writes of them.
#![tactic(auto)]

pub mod event;
pub mod fresh;
pub mod party;
pub mod stack;
pub mod thread;
