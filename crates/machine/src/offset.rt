//! Where each part of a state lies in the lent words, and how parts are told apart in a word.
//! specs/Offsets has the same numbers for the definitions.
use language::limit::{
    MOST_CELLS, MOST_EVENTS, MOST_ITEMS, MOST_SCHEDULERS, MOST_THREADS, MOST_VARIABLES,
};

/// How many threads there are, 0 to 64.
pub const THREAD_COUNT_AT: usize = 0;

/// How many cells are in use, at most 256.
pub const CELL_COUNT_AT: usize = 1;

/// The words of a list: its length, then a space of 64 words.
pub const LIST_LENGTH: usize = 1 + MOST_THREADS;

/// The schedulers, one after the other: the active list of each, then its next list.
pub const SCHEDULERS_AT: usize = 2;

/// The words of a scheduler.
pub const SCHEDULER_LENGTH: usize = 2 * LIST_LENGTH;

/// The next list of the first scheduler.
pub const NEXT_LIST_AT: usize = SCHEDULERS_AT + LIST_LENGTH;

/// The threads, one after the other.
pub const THREADS_AT: usize = SCHEDULERS_AT + MOST_SCHEDULERS as usize * SCHEDULER_LENGTH;

/// In the words of a thread, its place.
pub const PLACE_FIELD: usize = 0;

/// The thread that started it; 0 of `main`.
pub const STARTER_FIELD: usize = 1;

/// 1 while it lives, then 0.
pub const LIVES_FIELD: usize = 2;

/// How many items its continuation has, and then the items from the bottom.
pub const ITEMS_FIELD: usize = 3;

/// How many variables it has, and then their values from the first.
pub const VARIABLES_FIELD: usize = ITEMS_FIELD + 1 + MOST_ITEMS;

/// The words of a thread.
pub const THREAD_LENGTH: usize = VARIABLES_FIELD + 1 + MOST_VARIABLES;

/// Of each event, 1 while it is present, else 0.
pub const EVENTS_AT: usize = THREADS_AT + MOST_THREADS * THREAD_LENGTH;

/// The cells in use, and then 0.
pub const CELLS_AT: usize = EVENTS_AT + MOST_EVENTS as usize;

/// How many words a state has.
pub const STATE_LENGTH: usize = CELLS_AT + MOST_CELLS;

/// The words of a state, as a caller lends them.
pub type State = [u64; STATE_LENGTH];

/// An item is a statement, by its frame's number; from here on a back, by the place added; or a
/// drop.
pub const BACK_FROM: u64 = 1024;

/// The item that drops the last variable.
pub const DROP_WORD: u64 = 2048;

/// An entry of a next list is a thread; one that waits for thread u has this many times u added;
/// one that awaits event e has as many times e added, and `AWAITING_FROM`.
pub const WAITING_FACTOR: u64 = 128;

/// The entries from here on await an event.
pub const AWAITING_FROM: u64 = WAITING_FACTOR * WAITING_FACTOR;

/// A value is a number, by itself; from here on a truth; or a cell.
pub const TRUTH_FROM: u64 = 0x0001_0000_0000;

/// From here on a value is a cell, by its number added.
pub const CELL_FROM: u64 = 0x0002_0000_0000;

/// The word of a cell is this many times its owner, and the word of its content.
pub const OWNER_FACTOR: u64 = 0x0004_0000_0000;

/// The owner of a private cell is this and its thread, which is also how a choice names a thread.
pub const THREAD_OWNER_FROM: u64 = 16;
