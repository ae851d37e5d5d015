//! The end of an instant of a group of schedulers.
ghost use Rattle.std.specs.Prelude.{◌≡◌};
ghost use Rattle.text.specs.Frames.{frames_of};
ghost use Rattle.program.specs.Programs.{program_of};
ghost use Rattle.machine.specs.Calls.{as_call};
ghost use Rattle.machine.specs.Steps.{end_instant};
ghost use Rattle.stepper.specs.Inner.Files.{InstantWords, state_in, stepped_on};

use crate::party::{StepAnswer, nobody};
use groups::{any_active, end_on_each};
use language::Place;
use language::group::Schedulers;
use language::refusal::Rule;
use machine::offset::State;
use states::event::clear_events;

/// The instant of the scheduler q ends, and with it that of each one in step: if none of them has
/// an active thread, and one has a ready one.
pub(crate) fn end_instant(
    frames: &[u64],
    schedulers: &Schedulers,
    state: &mut State,
    q: Place,
) -> StepAnswer
    requires { InstantWords frames.now schedulers.now state.old q.number }
    ensures { stepped_on result state.new
        ≡ as_call state.old (end_instant (program_of (frames_of frames.now))
        (state_in frames.now state.old) q.number) }
{
    if any_active(schedulers, q, state) {
        return nobody(Some(Rule::NothingReady));
    }
    if end_on_each(schedulers, q, state) == 0 {
        return nobody(Some(Rule::NothingReady));
    }
    clear_events(frames, &schedulers.labels, state, q);
    nobody(None)
}
