//! A step on a file and a state that are known to be good: nothing is validated again.
ghost use Rattle.std.specs.Prelude.{◌≡◌};
ghost use Rattle.text.specs.Frames.{frames_of};
ghost use Rattle.program.specs.Programs.{program_of};
ghost use Rattle.machine.specs.Calls.{step_call};
ghost use Rattle.stepper.specs.Inner.Files.{StepWords, file_of, stepped_on};

use crate::file::File;
use crate::instant::end_instant;
use crate::party::{StepAnswer, acting_thread, nobody};
use crate::turn::turn;
use language::Place;
use language::refusal::Rule;
use machine::offset::State;

/// One choice: the acting thread takes its turn; where none acts, a scheduler's instant ends, and
/// any other choice names no party. A run calls this after the text has passed refusals 1 to 7, on
/// a state that it has made itself.
// One call of `turn`, so that it is compiled into this function once.
pub fn step_valid(frames: &[u64], file: &File, state: &mut State, choice: u64) -> StepAnswer
    requires { StepWords frames.now file.now.shared state.old
        × (file.now ≡ file_of (program_of (frames_of frames.now))) }
    ensures { stepped_on result state.new
        ≡ step_call (frames_of frames.now) state.old choice }
{
    let t = acting_thread(file.schedulers.count, state, choice);
    if t != 0 {
        return turn(frames, file, state, choice, t);
    }
    if !Place::is_scheduler_in_file(choice, file.schedulers.count) {
        return nobody(Some(Rule::NoParty));
    }
    end_instant(frames, &file.schedulers, state, Place::known(choice))
}
