//! Turns after which the thread is at a place: another or the same.
ghost use Rattle.std.specs.Prelude.{◌≡◌, ◌≤◌};
ghost use Rattle.language.specs.Places.{last_scheduler};
ghost use Rattle.turns.specs.Inner.Actions.{go_to_act, go_back, unlinked_again, do_there};
ghost use Rattle.turns.specs.Inner.Actions.{cooperation};

use crate::counts::{Counts, ONE_ITEM_LEFT};
use acts::act::{Action, Change, Transition, comes_to};
use language::Place;
use language::refusal::Rule;
use machine::offset::BACK_FROM;

/// To place q, from that place: a move to one's own place is none. The change is the one or the
/// other.
#[tactic(auto, using(crate::proofs::MoveRows::goes_rows))]
fn goes(from: Place, q: Place, same: Change, moved: Change) -> Result<Action, Rule>
    ensures { result ≡ go_to_act from q same moved }
{
    if q == from {
        comes_to(Transition::Stays, same)
    } else if q.is_private() {
        comes_to(Transition::Leaves, moved)
    } else {
        comes_to(Transition::Joins(q), moved)
    }
}

/// 'Back to q'.
pub(crate) fn goes_back(from: Place, q: Place) -> Result<Action, Rule>
    ensures { result ≡ go_back from q }
{
    goes(from, q, Change::Same, Change::Move(q))
}

/// Refusal 12's condition met when running: unlinked already.
fn unlinked_again(from: Place, q: Place) -> bool
    ensures { result ≡ unlinked_again from q }
{
    from.is_private() && q.is_private()
}

/// 12: the body above 'back to here'.
#[tactic(auto, using(crate::proofs::MoveRows::does_rows))]
pub(crate) fn does_at(from: Place, counts: Counts, q: Place, body: u64) -> Result<Action, Rule>
    requires { from.number ≤ last_scheduler }
    ensures { result ≡ do_there from counts q body }
{
    if unlinked_again(from, q) || ONE_ITEM_LEFT <= counts.items {
        return Err(Rule::Stuck);
    }
    goes(
        from,
        q,
        Change::Items(body, BACK_FROM + from.word()),
        Change::Enter(q, body),
    )
}

/// 15: to the end of the next list.
#[tactic(auto, using(crate::proofs::MoveRows::cooperates_rows))]
pub(crate) fn cooperates(place: Place) -> Result<Action, Rule>
    ensures { result ≡ cooperation place }
{
    if place.is_private() {
        return Err(Rule::Stuck);
    }
    comes_to(Transition::Joins(place), Change::Same)
}
