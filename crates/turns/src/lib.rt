//! A thread's turn: what its top item comes to, by what is seen of the thread. The whole state is
//! lent, and of its words only those of the cells and their count are written: the thread and the
//! lists change after the turn.
#![tactic(auto)]

pub mod counts;
mod evaluated;
pub mod item;
mod moving;
mod start;
mod statement;
mod staying;
