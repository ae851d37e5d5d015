//! The words of values and of cells. specs/Words has the same for the definitions.
ghost use Rattle.std.specs.Prelude.{◌≡◌, ◌+◌, ◌*◌, ◌<◌};
ghost use Rattle.machine.specs.Offsets.{owner_factor};
ghost use Rattle.machine.specs.Values.{Number, Truth, Cell};
ghost use Rattle.machine.specs.Words.{value_word};

use crate::offset::{CELL_FROM, OWNER_FACTOR, TRUTH_FROM};
use crate::value::Value;

/// The word of `true`; that of `false` is `TRUTH_FROM`.
pub const TRUE_WORD: u64 = TRUTH_FROM + 1;

// No `From<Value>`: the fresh state has the word of a cell's number of 16 bits, which no `Value`
// holds, and docs/CONTRACTS names the four with their wrong meanings. An owner has room above each.

/// The word of a number: itself.
#[tactic(auto, unfolding(crate::specs::Words::value_word))]
pub fn number_word(n: u32) -> u64
    ensures { (result ≡ value_word (Number n)) × (result < owner_factor) }
{
    u64::from(n)
}

/// The word of a truth.
#[tactic(auto, unfolding(crate::specs::Words::value_word))]
pub fn truth_word(t: bool) -> u64
    ensures { (result ≡ value_word (Truth t)) × (result < owner_factor) }
{
    if t { TRUE_WORD } else { TRUTH_FROM }
}

/// The word of cell c as a value.
#[tactic(auto, unfolding(crate::specs::Words::value_word))]
pub fn reference_word(c: u16) -> u64
    ensures { (result ≡ value_word (Cell c)) × (result < owner_factor) }
{
    CELL_FROM + u64::from(c)
}

/// The word of a value.
#[tactic(auto, using(crate::proofs::ValueWords::word_at))]
pub fn value_word(v: Value) -> u64
    ensures { (result ≡ value_word v) × (result < owner_factor) }
{
    match v {
        Value::Number(n) => number_word(n),
        Value::Truth(t) => truth_word(t),
        Value::Cell(c) => reference_word(u16::from(c)),
    }
}

/// The word of a cell: its owner above the word of its content. A word with no room for an owner
/// above it would change the owner, and no value has such a word.
pub fn cell_word(owner: u16, content: u64) -> u64
    requires { content < owner_factor }
    ensures { result ≡ owner * owner_factor + content }
{
    u64::from(owner) * OWNER_FACTOR + content
}
