//! The chosen scheduler's first active thread leaves its list.
ghost use Rattle.std.specs.Prelude.{◌≡◌, length};
ghost use Rattle.commits.specs.Inner.Commits.{left_in};

use language::Place;
use lists::list::drop_first;
use machine::offset::State;

/// The list of the scheduler that is chosen loses its first; a chosen thread stands in no list.
pub fn leave(state: &mut State, choice: u64)
    ensures { state.new ≡ left_in state.old choice }
{
    if let Some(q) = Place::scheduler(choice) {
        drop_first(state, q);
    }
}
