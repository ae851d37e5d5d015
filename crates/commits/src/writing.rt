//! The single changes that a commit is made of.
ghost use Rattle.std.specs.Prelude.{◌≡◌, true, ◌≤◌, length};
ghost use Rattle.language.specs.Places.{is_scheduler};
ghost use Rattle.language.specs.Limits.{most_cells};
ghost use Rattle.states.specs.Inner.Threads.{thread_in};
ghost use Rattle.acts.specs.Inner.Transitions.{changed, popped};
ghost use Rattle.commits.specs.Inner.Commits.{count_in, cleared_in, settled_in, room_in};
ghost use Rattle.commits.specs.Inner.Commits.{joined_in, SettleWords};

use crate::change::{change_thread, take_item};
use acts::act::Change;
use language::Place;
use lists::list::{append, has_room};
use machine::offset::{CELL_COUNT_AT, CELLS_AT, State};

/// The cells in use from that one on are no longer there.
pub(crate) fn clear_cells(state: &mut State, from: usize)
    requires { (count_in state.old ≤ most_cells) }
    ensures { state.new ≡ cleared_in state.old from }
{
    let upto = state[CELL_COUNT_AT] as usize;
    if from < upto {
        state[CELLS_AT + from..CELLS_AT + upto].fill(0);
    }
    state[CELL_COUNT_AT] = from as u64;
}

/// Thread k, from 0, with the change made once its top item is off; the cells and their count are
/// the turn's already.
pub(crate) fn settle(state: &mut State, k: usize, change: Change)
    requires { SettleWords state.old k change }
    ensures { state.new ≡ settled_in state.old k
        (changed change (popped (thread_in state.old k))) }
{
    take_item(state, k);
    change_thread(state, k, change);
}

/// So many more entries have room in the next list of q; only a scheduler has one.
#[tactic(auto, unfolding(crate::specs::Inner::Commits::room_in))]
pub(crate) fn room_at(state: &State, q: Place, more: u8) -> bool
    ensures { result ≡ room_in state.now q.number more }
{
    q.is_scheduler() && has_room(state, q, more)
}

/// The entry is the last of the next list of q.
pub(crate) fn join(state: &mut State, q: Place, entry: u64)
    requires { (is_scheduler q.number ≡ true) }
    ensures { state.new ≡ joined_in state.old q.number entry }
{
    append(state, q, entry);
}
