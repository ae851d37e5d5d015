//! The lines of a run, gathered in the buffer after the check's line.
ghost use Rattle.std.specs.Prelude.{◌≡◌, ◌+◌, ◌*◌, ◌≤◌, length, take};
ghost use Rattle.text.specs.Frames.{frames_of};
ghost use Rattle.program.specs.Programs.{program_of};
ghost use Rattle.machine.specs.Runs.{state_after};
ghost use Rattle.machine.specs.Words.{pack};
ghost use Rattle.runs.specs.Listings.{written};
ghost use Rattle.runs.specs.Inner.Parts.{choices_of, step_lines, check_length, choice_length};
ghost use Rattle.runs.specs.Inner.Parts.{RunStart};

use language::limit::{CHECK_LINE, CHOICE_LINE};
use listing::buffer::put;
use listing::choices::choice_at;
use listing::line::choice_line;
use machine::offset::{CELL_COUNT_AT, State};
use stepper::file::File;
use stepper::valid::step_valid;

/// Steps the first n choices of choices.txt, from the fresh state on, and writes a line for each;
/// its cells in use are those after the step.
pub(crate) fn step_lines(
    frames: &[u64],
    file: &File,
    bytes: &[u8],
    n: usize,
    state: &mut State,
    out: &mut [u8],
)
    requires { RunStart frames.now file.now state.old × (n ≤ length (choices_of bytes.now))
        × (check_length + choice_length * n ≤ length out.old) }
    ensures words { state.new
        ≡ pack (state_after (program_of (frames_of frames.now)) (take n (choices_of bytes.now))) }
    ensures lines { out.new
        ≡ written out.old check_length
        (step_lines (program_of (frames_of frames.now)) (take n (choices_of bytes.now))) }
{
    for k in 0..n {
        let c = choice_at(bytes, k);
        let s = step_valid(frames, file, state, u64::from(c));
        let cells = state[CELL_COUNT_AT] as u16;
        let line = choice_line(c, s.number(), s.thread, cells, s.accesses);
        put(out, CHECK_LINE + CHOICE_LINE * k, &line);
    }
}
