//! The turn of one thread on the lent words.
ghost use Rattle.std.specs.Prelude.{◌≡◌, ◌<◌, ◌≤◌, eqb, get_or, set};
ghost use Rattle.language.specs.Limits.{most_threads};
ghost use Rattle.text.specs.Frames.{frames_of};
ghost use Rattle.program.specs.Programs.{program_of};
ghost use Rattle.machine.specs.Offsets.{thread_count_at, cell_count_at};
ghost use Rattle.machine.specs.Inner.Parts.{step_thread};
ghost use Rattle.machine.specs.Calls.{as_call};
ghost use Rattle.basics.specs.If.{when◌then◌else◌};
ghost use Rattle.operations.specs.Inner.Heaps.{cells_in, accesses_in};
ghost use Rattle.stepper.specs.Inner.Files.{StepWords, state_in, turn_left, TurnChoice};
ghost use Rattle.stepper.specs.Inner.Files.{step_number, stepped_on, most_counted, grouping_of};

use crate::file::File;
use crate::party::StepAnswer;
use acts::act::Action;
use commits::commit::commit;
use commits::leave::leave;
use language::Place;
use language::refusal::Rule;
use machine::offset::{
    CELL_COUNT_AT, ITEMS_FIELD, State, THREAD_LENGTH, THREADS_AT, VARIABLES_FIELD,
};
use operations::Who;
use operations::heap::{accesses_in, cells_in};
use states::stack::top_item;
use states::thread::thread_count;
use turns::counts::Counts;
use turns::item::act;

/// What the turn of a thread that is there comes to. Of the words, only those of the cells and of
/// their count are written; the count has the accesses too.
fn act_in(frames: &[u64], shared: usize, state: &mut State, t: u64) -> Result<Action, Rule>
    requires { StepWords frames.now shared state.old × (1 ≤ t)
        × (t ≤ get_or state.old thread_count_at 0) }
    ensures { turn_left result state.new frames.now shared state.old
        t }
{
    let k = (t - 1) as usize;
    let at = THREADS_AT + THREAD_LENGTH * k;
    let who = Who {
        thread: t as u8,
        place: Place::known(state[at]),
        shared,
    };
    let counts = Counts {
        items: state[at + ITEMS_FIELD],
        variables: state[at + VARIABLES_FIELD],
    };
    let item = top_item(state, k);
    act(frames, who, counts, item, state)
}

/// Takes the accesses out of the count of the cells.
fn take_accesses(state: &mut State) -> u64
    ensures accesses { result ≡ accesses_in (get_or state.old cell_count_at 0) }
    ensures words { state.new
        ≡ set state.old cell_count_at
        (cells_in (get_or state.old cell_count_at 0)) }
{
    let count = state[CELL_COUNT_AT];
    state[CELL_COUNT_AT] = cells_in(count) as u64;
    accesses_in(count)
}

/// The accesses that are answered: a refused turn has none.
#[tactic(auto, using(crate::proofs::TurnLaws::counted_laws))]
fn counted(refusal: Option<Rule>, accesses: u64) -> u16
    requires { accesses < most_counted }
    ensures { result ≡ (when eqb (step_number refusal) 0 then accesses else 0) }
{
    match refusal {
        None => accesses as u16,
        Some(_) => 0,
    }
}

/// Thread t takes its turn at that choice. One that a list names and that is not there ends: it
/// leaves the list.
pub(crate) fn turn(
    frames: &[u64],
    file: &File,
    state: &mut State,
    choice: u64,
    t: u64,
) -> StepAnswer
    requires { StepWords frames.now file.now.shared state.old × (1 ≤ t) × (t ≤ most_threads)
        × TurnChoice frames.now choice
        × (file.now.schedulers ≡ grouping_of (program_of (frames_of frames.now))) }
    ensures { stepped_on result state.new
        ≡ as_call state.old
        (step_thread (program_of (frames_of frames.now)) (state_in frames.now state.old) choice t) }
{
    let thread = t as u8;
    if thread_count(state) < t {
        leave(state, choice);
        return StepAnswer {
            refusal: None,
            thread,
            accesses: 0,
        };
    }
    let before = state[CELL_COUNT_AT] as usize;
    let action = act_in(frames, file.shared, state, t);
    let accesses = take_accesses(state);
    let refusal = commit(frames, &file.schedulers, state, before, choice, t, action).err();
    StepAnswer {
        refusal,
        thread,
        accesses: counted(refusal, accesses),
    }
}
