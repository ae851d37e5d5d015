//! The words of cells read, and with another content: an owner above the word of a value.
ghost use Rattle.std.specs.Prelude.{◌≡◌};
ghost use Rattle.operations.specs.Inner.ByWords.{value_in, owner_in, content_in, cell_word_of};

use language::limit::MOST_CELLS;
use machine::offset::{CELL_FROM, OWNER_FACTOR, TRUTH_FROM};
use machine::value::Value;
use machine::word::{TRUE_WORD, value_word};

// A cell's number fits a byte, whatever the word is.
const CELLS: u64 = MOST_CELLS as u64;

// The value of a word.
#[tactic(auto, using(crate::proofs::WordLaws::value_laws))]
pub(crate) fn value_of(w: u64) -> Value
    ensures { result ≡ value_in w }
{
    if w < TRUTH_FROM {
        Value::Number(w as u32)
    } else if w < CELL_FROM {
        Value::Truth(w == TRUE_WORD)
    } else {
        Value::Cell((w % CELLS) as u8)
    }
}

// The word of the same cell with another content.
pub(crate) fn with_content(w: u64, v: Value) -> u64
    ensures { result ≡ cell_word_of (owner_in w) v }
{
    w / OWNER_FACTOR * OWNER_FACTOR + value_word(v)
}

pub(crate) fn owner_of(w: u64) -> u64
    ensures { result ≡ owner_in w }
{
    w / OWNER_FACTOR
}

pub(crate) fn content_of(w: u64) -> Value
    ensures { result ≡ content_in w }
{
    value_of(w % OWNER_FACTOR)
}
