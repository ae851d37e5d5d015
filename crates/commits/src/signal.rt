//! Events: what a generation and an await come to on the lent words, and a generation made.
ghost use Rattle.std.specs.Prelude.{◌≡◌, true, ◌&&◌, ◌≤◌, ◌<◌, length};
ghost use Rattle.language.specs.Limits.{most_events, most_schedulers};
ghost use Rattle.text.specs.Frames.{frames_of};
ghost use Rattle.program.specs.Programs.{program_of, events_of};
ghost use Rattle.program.specs.Inner.Events.{event_in};
ghost use Rattle.commits.specs.Inner.Commits.{owns_event, wake_room_in, await_room_in};
ghost use Rattle.commits.specs.Inner.Commits.{signal_obstacle, generated_in};
ghost use Rattle.commits.specs.Inner.Commits.{generate_tested, await_tested};
ghost use Rattle.commits.specs.Inner.Commits.{WakeWords};
ghost use Rattle.lists.specs.Inner.Lists.{ListsFit};

use crate::decision::{Decision, Passed};
use crate::writing::room_at;
use acts::act::Action;
use groups::{room_on_each, wake_on_each};
use language::Place;
use language::group::{Schedulers, is_member};
use language::refusal::Rule;
use machine::offset::State;
use program::event::event_at;
use states::event::{is_present, set_present};

/// A thread at that place stands on a scheduler in step with the event's owner.
fn owns(schedulers: &Schedulers, place: Place, owner: u8) -> bool
    ensures { result ≡ owns_event schedulers.now place.number owner }
{
    place.is_scheduler() && is_member(&schedulers.labels, place, owner)
}

/// Who awaits the event has room in the active list of each member of the owner's group.
fn has_wake_room(schedulers: &Schedulers, state: &State, owner: u8, e: u8) -> bool
    requires { (schedulers.now.count ≤ most_schedulers) × ListsFit state.now }
    ensures { result ≡ wake_room_in schedulers.now
        state.now owner e }
{
    match Place::scheduler(u64::from(owner)) {
        Some(q) => room_on_each(schedulers, q, state, e),
        None => false,
    }
}

/// What stands in the way of a generation or an await of an event of that owner: no room before
/// foreign.
#[tactic(auto, using(crate::proofs::SignalLaws::signal_laws))]
fn signal_obstacle(schedulers: &Schedulers, owner: u8, place: Place, room: bool) -> Result<(), Rule>
    ensures { result ≡ signal_obstacle schedulers.now room owner place.number }
{
    if !room {
        return Err(Rule::Stuck);
    }
    if !owns(schedulers, place, owner) {
        return Err(Rule::Foreign);
    }
    Ok(())
}

/// 1A, by a thread that stands at that place.
pub(crate) fn decide_generate(
    frames: &[u64],
    schedulers: &Schedulers,
    state: &State,
    a: Action,
    place: Place,
    e: u8,
) -> Result<Decision, Rule>
    requires { (schedulers.now.count ≤ most_schedulers) × ListsFit state.now }
    ensures { result ≡ generate_tested schedulers.now
        state.now a
        (event_in (program_of (frames_of frames.now)) e) place e }
{
    let owner = event_at(frames, e).ok_or(Rule::Stuck)?;
    let room = has_wake_room(schedulers, state, owner, e);
    signal_obstacle(schedulers, owner, place, room)?;
    Ok(Decision::Settle(a.change, Passed::Wake(place, e)))
}

/// An await of event e, one of 16, has room: of a present event none is needed, and an unlinked
/// thread, which has no list, is foreign.
fn has_await_room(state: &State, place: Place, e: u8) -> bool
    requires { (e < most_events) }
    ensures { result ≡ await_room_in state.now place.number e }
{
    is_present(state, e) || place.is_private() || room_at(state, place, 1)
}

/// 1B, by a thread that stands at that place.
pub(crate) fn decide_await(
    frames: &[u64],
    schedulers: &Schedulers,
    state: &State,
    a: Action,
    place: Place,
    e: u8,
) -> Result<Decision, Rule>
    requires { (schedulers.now.count ≤ most_schedulers)
        × (length (events_of (frames_of frames.now)) ≤ most_events) }
    ensures { result ≡ await_tested schedulers.now
        state.now a
        (event_in (program_of (frames_of frames.now)) e) place e }
{
    let owner = event_at(frames, e).ok_or(Rule::Stuck)?;
    let room = has_await_room(state, place, e);
    signal_obstacle(schedulers, owner, place, room)?;
    if is_present(state, e) {
        return Ok(Decision::Settle(a.change, Passed::Keep));
    }
    Ok(Decision::Suspend(place, e))
}

/// The event is present, and who awaits it on a member of that scheduler's group is active.
pub(crate) fn generate(schedulers: &Schedulers, state: &mut State, q: Place, e: u8)
    requires { WakeWords schedulers.now state.old q e }
    ensures { state.new ≡ generated_in schedulers.now
        state.old q.number e }
{
    wake_on_each(schedulers, q, state, e);
    set_present(state, e);
}
