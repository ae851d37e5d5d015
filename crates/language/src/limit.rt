// How much a text, a file, a state and a run hold at most. specs/Limits says where 01 has each.
pub const LINE_LENGTH: usize = 17;

pub const MOST_LINES: usize = 1024;

pub const MOST_BYTES: usize = MOST_LINES * LINE_LENGTH;

pub const MOST_SCHEDULERS: u16 = 8;

pub const MOST_SHARED: usize = 16;

pub const MOST_MODULES: usize = 16;

pub const MOST_EVENTS: u16 = 16;

pub const MOST_PARAMETERS: u8 = 2;

pub const MOST_DEPTH: u8 = 24;

pub const MOST_VARIABLES: usize = 25;

pub const MOST_THREADS: usize = 64;

pub const MOST_CELLS: usize = 256;

pub const MOST_ITEMS: usize = 25;

pub const MOST_CHOICES: usize = 16384;

pub const MOST_CHOICE_BYTES: usize = 3 * MOST_CHOICES;

// The lines of a listing: the check's, a choice's, the last.
pub const CHECK_LINE: usize = 8;

pub const CHOICE_LINE: usize = 19;

pub const LAST_LINE: usize = 5;

pub const MOST_LISTING_BYTES: usize = CHECK_LINE + CHOICE_LINE * MOST_CHOICES + LAST_LINE;

// What a header's allowance of 0 means: 02, change 1.
pub const DEFAULT_ALLOWANCE: u16 = 16384;
