//! Programs: the trees of statements and expressions that frames are, and frames taken apart.
#![tactic(auto)]

pub mod event;
pub mod frames;
pub mod group;
pub mod module;
pub mod node;
mod numbered;
pub mod shared;
