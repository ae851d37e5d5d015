//! A turn committed to the lent words: the thread, the lists, the events, the cells made; or,
//! refused, the words as they were.
#![tactic(auto)]

mod change;
pub mod commit;
mod decision;
pub mod leave;
pub mod rule_name;
mod signal;
mod start;
mod writing;
