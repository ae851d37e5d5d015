//! The events in the lent words: 1 where one is present.
ghost use Rattle.std.specs.Prelude.{◌≡◌, ◌+◌, ◌<◌, ◌≤◌, eqb, length, get_or, set, true};
ghost use Rattle.language.specs.Limits.{most_events};
ghost use Rattle.language.specs.Places.{is_scheduler};
ghost use Rattle.language.specs.Inner.Labels.{in_group};
ghost use Rattle.text.specs.Frames.{frames_of};
ghost use Rattle.program.specs.Trees.{frame_at};
ghost use Rattle.program.specs.Programs.{events_of};
ghost use Rattle.machine.specs.Offsets.{events_at};
ghost use Rattle.machine.specs.Inner.Ranges.{all_below};
ghost use Rattle.states.specs.Inner.Events.{is_absent, without_owned, without_events};

use language::Place;
use language::group::{Labels, is_member};
use language::kind::DeclarationKind;
use machine::offset::{EVENTS_AT, State};
use program::frames::frame_at;
use program::group::line_declares;
use text::line::frame_of_word;

/// Whether event e, from 0, is present.
pub fn is_present(state: &State, e: u8) -> bool
    requires { e < most_events }
    ensures { result ≡ eqb (get_or state.now (events_at + e) 0) 1 }
{
    state[EVENTS_AT + usize::from(e)] == 1
}

/// Event e is present from now on.
pub fn set_present(state: &mut State, e: u8)
    requires { e < most_events }
    ensures { state.new ≡ set state.old (events_at + e) 1 }
{
    state[EVENTS_AT + usize::from(e)] = 1;
}

// Event e of that owner is no longer present, if the owner is in step with the scheduler.
#[tactic(auto, using(crate::proofs::EventLaws::clear_laws))]
fn clear_event(labels: &Labels, state: &mut State, q: Place, owner: u8, e: u8)
    requires { (e < most_events) × (is_scheduler q.number ≡ true) }
    ensures { state.new ≡ without_owned (in_group labels.now q.number)
        owner state.old e }
{
    let at = EVENTS_AT + usize::from(e);
    if state[at] != 0 && is_member(labels, q, owner) {
        state[at] = 0;
    }
}

// The header's C. A file that passes refusals 1 to 7 has at most 16 events.
fn event_count(frames: &[u64]) -> u8
    requires { (0 < length frames.now)
        × ((frame_at (frames_of frames.now) 0).c ≤ most_events) }
    ensures { result ≡ (frame_at (frames_of frames.now) 0).c }
{
    (frame_at(frames, 0).c % 256) as u8
}

// None of the first n events is present.
fn none_present(state: &State, n: u8) -> bool
    requires { n ≤ most_events }
    ensures { result ≡ all_below n (is_absent state.now) }
{
    state[EVENTS_AT..EVENTS_AT + usize::from(n)]
        .iter()
        .all(|w| *w == 0)
}

/// The events of the scheduler and of those in step with it are no longer present: where some event
/// is, one pass over the lines up to the last one.
pub fn clear_events(frames: &[u64], labels: &Labels, state: &mut State, q: Place)
    requires { (0 < length frames.now)
        × ((frame_at (frames_of frames.now) 0).c ≤ most_events) × (is_scheduler q.number ≡ true) }
    ensures { state.new ≡ without_events (in_group labels.now q.number)
        (events_of (frames_of frames.now)) state.old
        (frame_at (frames_of frames.now) 0).c }
{
    let events = event_count(frames);
    if none_present(state, events) {
        return;
    }
    let mut e: u8 = 0;
    for line in frames {
        if events <= e {
            return;
        }
        if line_declares(DeclarationKind::Event, *line) {
            let f = frame_of_word(*line);
            clear_event(labels, state, q, f.s, e);
            e += 1;
        }
    }
}
