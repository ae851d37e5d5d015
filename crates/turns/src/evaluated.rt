//! Turns after an evaluation: its refusal stands, or its value decides.
ghost use Rattle.std.specs.Prelude.{◌≡◌};
ghost use Rattle.turns.specs.Inner.Actions.{value_of, truth_or_stuck, after_value, let_after};
ghost use Rattle.turns.specs.Inner.Actions.{store_after, choose_after, loop_after};

use crate::counts::Counts;
use crate::staying::{lets, stays_with, stays_with_two};
use acts::act::{Action, Change, Transition, comes_to};
use language::refusal::Rule;
use machine::value::{Outcome, Value};
use machine::word::value_word;

/// The value that an evaluation gives, or the rule that refuses it.
pub(crate) fn value_of(o: Outcome) -> Result<Value, Rule>
    ensures { result ≡ value_of o }
{
    match o {
        Outcome::Is(x) => Ok(x),
        Outcome::Foreign => Err(Rule::Foreign),
        Outcome::Spent => Err(Rule::CellsSpent),
        Outcome::Stuck => Err(Rule::Stuck),
    }
}

/// The truth that a condition is; any other value is 20.
fn truth_in(x: Value) -> Result<bool, Rule>
    ensures { result ≡ truth_or_stuck x }
{
    match x {
        Value::Truth(t) => Ok(t),
        Value::Number(_) | Value::Cell(_) => Err(Rule::Stuck),
    }
}

/// 16.
pub(crate) fn lets_after(x: Outcome, counts: Counts, body: u64) -> Result<Action, Rule>
    ensures { result ≡ after_value x (let_after counts body) }
{
    let value = value_of(x)?;
    lets(counts, value_word(value), body)
}

/// 17.
pub(crate) fn stores_after(x: Outcome) -> Result<Action, Rule>
    ensures { result ≡ after_value x store_after }
{
    value_of(x)?;
    comes_to(Transition::Stays, Change::Same)
}

/// 18: one branch.
pub(crate) fn chooses_after(x: Outcome, counts: Counts, a: u64, b: u64) -> Result<Action, Rule>
    ensures { result ≡ after_value x (choose_after counts a b) }
{
    let value = value_of(x)?;
    if truth_in(value)? {
        stays_with(counts, a)
    } else {
        stays_with(counts, b)
    }
}

/// 19: if true, the body above the same loop.
pub(crate) fn loops_after(x: Outcome, counts: Counts, body: u64, again: u64) -> Result<Action, Rule>
    ensures { result ≡ after_value x (loop_after counts body again) }
{
    let value = value_of(x)?;
    if truth_in(value)? {
        stays_with_two(counts, body, again)
    } else {
        comes_to(Transition::Stays, Change::Same)
    }
}
