//! How full the spaces of a thread are.
use language::limit::{MOST_ITEMS, MOST_VARIABLES};

/// The spaces of a thread, at the width of the counts.
pub(crate) const ITEM_SPACE: u64 = MOST_ITEMS as u64;

pub(crate) const VARIABLE_SPACE: u64 = MOST_VARIABLES as u64;

/// With so many items there is space for one more, and not for two.
pub(crate) const ONE_ITEM_LEFT: u64 = ITEM_SPACE - 1;

/// How many items a thread's continuation has, and how many variables there are.
#[derive(Clone, Copy, Debug, PartialEq, Eq)]
pub struct Counts {
    pub items: u64,
    pub variables: u64,
}
