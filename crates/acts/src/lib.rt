//! What a turn comes to: the words that a turn and its commit share.
#![tactic(auto)]

pub mod act;
