//! Turns after which the thread stays where it is, with items or a variable more or less. A full
//! space is 20.
ghost use Rattle.std.specs.Prelude.{◌≡◌};
ghost use Rattle.turns.specs.Inner.Actions.{one_more, two_more, let_more, drop_one};

use crate::counts::{Counts, ITEM_SPACE, ONE_ITEM_LEFT, VARIABLE_SPACE};
use acts::act::{Action, Change, Transition, comes_to};
use language::refusal::Rule;

/// One item more.
#[tactic(auto, using(crate::proofs::StayRows::one_rows))]
pub(crate) fn stays_with(counts: Counts, item: u64) -> Result<Action, Rule>
    ensures { result ≡ one_more counts item }
{
    if ITEM_SPACE <= counts.items {
        return Err(Rule::Stuck);
    }
    comes_to(Transition::Stays, Change::Item(item))
}

/// Two, the top one first.
#[tactic(auto, using(crate::proofs::StayRows::two_rows))]
pub(crate) fn stays_with_two(counts: Counts, top: u64, below: u64) -> Result<Action, Rule>
    ensures { result ≡ two_more counts top below }
{
    if ONE_ITEM_LEFT <= counts.items {
        return Err(Rule::Stuck);
    }
    comes_to(Transition::Stays, Change::Items(top, below))
}

/// 16: one variable more, and the body above a drop of it.
#[tactic(auto, using(crate::proofs::StayRows::lets_rows))]
pub(crate) fn lets(counts: Counts, value: u64, body: u64) -> Result<Action, Rule>
    ensures { result ≡ let_more counts value body }
{
    if VARIABLE_SPACE <= counts.variables || ONE_ITEM_LEFT <= counts.items {
        return Err(Rule::Stuck);
    }
    comes_to(Transition::Stays, Change::Let(value, body))
}

/// A drop of the last variable.
#[tactic(auto, using(crate::proofs::StayRows::drops_rows))]
pub(crate) fn drops(counts: Counts) -> Result<Action, Rule>
    ensures { result ≡ drop_one counts }
{
    if counts.variables == 0 {
        return Err(Rule::Stuck);
    }
    comes_to(Transition::Stays, Change::Drop)
}
