//! The turn of a thread: its top item.
ghost use Rattle.std.specs.Prelude.{◌≡◌};
ghost use Rattle.text.specs.Frames.{frames_of};
ghost use Rattle.operations.specs.Inner.Lent.{lent_rest, on_lent};
ghost use Rattle.turns.specs.Inner.Acts.{TurnWords, ItemWord};
ghost use Rattle.turns.specs.Inner.Actions.{item_act, turn_act, act_in};

use crate::counts::Counts;
use crate::moving::goes_back;
use crate::statement::act_statement;
use crate::staying::drops;
use acts::act::{Action, Change, Transition, comes_to};
use language::Place;
use language::refusal::Rule;
use machine::offset::{BACK_FROM, DROP_WORD, State};
use operations::Who;

/// The item that is off its continuation: the counts are without it.
fn act_item(
    frames: &[u64],
    who: Who,
    counts: Counts,
    state: &mut State,
    item: u64,
) -> Result<Action, Rule>
    requires { TurnWords frames.now who counts state.old × ItemWord frames.now item }
    ensures found { act_in result state.new
        ≡ on_lent (item_act (frames_of frames.now) who counts item) who
        state.old }
    ensures rest { lent_rest state.new ≡ lent_rest state.old }
{
    if item < BACK_FROM {
        return act_statement(frames, who, counts, state, item as usize);
    }
    if item < DROP_WORD {
        return goes_back(who.place, Place::known(item - BACK_FROM));
    }
    drops(counts)
}

/// The turn of a thread with that item on top. One without an item ends.
// The whole state is lent, since the variables are read where they lie beside the cells, which with
// their count alone are written.
pub fn act(
    frames: &[u64],
    who: Who,
    counts: Counts,
    item: u64,
    state: &mut State,
) -> Result<Action, Rule>
    requires { TurnWords frames.now who counts state.old × ItemWord frames.now item }
    ensures found { act_in result state.new
        ≡ on_lent (turn_act (frames_of frames.now) who counts item) who
        state.old }
    ensures rest { lent_rest state.new ≡ lent_rest state.old }
{
    if counts.items == 0 {
        return comes_to(Transition::Leaves, Change::End);
    }
    let below = Counts {
        items: counts.items - 1,
        variables: counts.variables,
    };
    act_item(frames, who, below, state, item)
}
