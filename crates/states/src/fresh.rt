//! The fresh state of a file, written into the lent words.
ghost use Rattle.std.specs.Prelude.{◌≡◌, ◌<◌, length, set};
ghost use Rattle.text.specs.Frames.{frames_of};
ghost use Rattle.program.specs.Programs.{shared_of, program_of, cell_of};
ghost use Rattle.machine.specs.Offsets.{cell_count_at, owner_factor};
ghost use Rattle.machine.specs.Values.{first_content};
ghost use Rattle.machine.specs.Fresh.{first_cell, fresh};
ghost use Rattle.machine.specs.Words.{value_word, cell_word, pack};
ghost use Rattle.states.specs.Inner.Starts.{with_shared};

use crate::thread::{ThreadWords, add_thread};
use language::Place;
use language::frame::Frame;
use language::limit::MOST_CELLS;
use language::type_word::{NUMBER, is_cell};
use machine::offset::{CELL_COUNT_AT, CELLS_AT, SCHEDULERS_AT, State};
use machine::word::{cell_word, number_word, reference_word, truth_word};
use program::module::main_body;
use program::shared::next_shared;
use text::line::frame_of_word;

// Where the first active thread of the first scheduler is.
const FIRST_ACTIVE: usize = SCHEDULERS_AT + 1;

// The word of a first content: a cell, a number, or a truth, by its type.
#[tactic(auto, using(crate::proofs::FreshLaws::content_laws))]
fn first_content_word(content: u16, first: u16) -> u64
    ensures { (result ≡ value_word (first_content content first)) × (result < owner_factor) }
{
    if is_cell(content) {
        reference_word(first)
    } else if content == NUMBER {
        number_word(u32::from(first))
    } else {
        truth_word(first == 1)
    }
}

fn first_cell_word(f: Frame) -> u64
    ensures { result ≡ cell_word (first_cell (cell_of f)) }
{
    cell_word(u16::from(f.s), first_content_word(f.a, f.b))
}

// The first contents of the shared cells, as far as there is space, and how many there are. A
// `while`: no count leads, `next_shared` goes from one shared cell's line to the next.
fn write_shared(frames: &[u64], state: &mut State) -> u64
    ensures count { result ≡ length (shared_of (frames_of frames.now)) }
    ensures words { state.new
        ≡ with_shared state.old (shared_of (frames_of frames.now)) }
{
    let mut i = next_shared(frames, 0);
    let mut c: usize = 0;
    while i < frames.len() {
        if c < MOST_CELLS {
            state[CELLS_AT + c] = first_cell_word(frame_of_word(frames[i]));
        }
        c += 1;
        i = next_shared(frames, i + 1);
    }
    c as u64
}

fn write_cells(frames: &[u64], state: &mut State)
    ensures { state.new
        ≡ set (with_shared state.old (shared_of (frames_of frames.now)))
        cell_count_at (length (shared_of (frames_of frames.now))) }
{
    let cells = write_shared(frames, state);
    state[CELL_COUNT_AT] = cells;
}

/// The fresh state of the file with those frames, whatever the words were.
pub fn write_fresh(frames: &[u64], state: &mut State)
    ensures { state.new
        ≡ pack (fresh (program_of (frames_of frames.now))) }
{
    state.fill(0);
    write_cells(frames, state);
    add_thread(state, &ThreadWords::new(Place::HOME, 0, main_body(frames)));
    // `main` is active at home, the first scheduler.
    state[SCHEDULERS_AT] = 1;
    state[FIRST_ACTIVE] = 1;
}
