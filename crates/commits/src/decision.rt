//! What a turn comes to on the lent words: it is refused, or passed. Nothing is written before that
//! is known.
ghost use Rattle.std.specs.Prelude.{◌≡◌, true, ◌-◌, ◌≤◌, length, Ok};
ghost use Rattle.language.specs.Places.{is_place};
ghost use Rattle.language.specs.Limits.{most_threads};
ghost use Rattle.text.specs.Frames.{frames_of};
ghost use Rattle.program.specs.Programs.{program_of};
ghost use Rattle.commits.specs.Inner.Commits.{CommitWords, SettleWords, obstacle_in};
ghost use Rattle.states.specs.Inner.Threads.{thread_in};
ghost use Rattle.commits.specs.Inner.Commits.{place_in, start_decided, decided_in};

use crate::change::place_after;
use crate::signal::{decide_await, decide_generate};
use crate::writing::room_at;
use acts::act::{Action, Arguments, Change, Transition};
use language::Place;
use language::group::Schedulers;
use language::limit::MOST_THREADS;
use language::refusal::Rule;
use machine::offset::{State, THREAD_LENGTH, THREADS_AT};
use program::module::{Module, module_at};
use states::thread::thread_count;

/// What the lists do after a turn that nothing refuses.
#[derive(Clone, Copy, Debug, PartialEq, Eq)]
pub(crate) enum Passed {
    /// The thread keeps its entry.
    Keep,
    /// It leaves its list.
    Leave,
    /// It leaves it and joins the next list of that scheduler.
    Join(Place),
    /// A thread of that body starts at that scheduler with those arguments, and the starter waits
    /// for it or not.
    Start(bool, Place, u64, Arguments),
    /// An event of that scheduler's group is present, and who awaits it on a member is active.
    Wake(Place, u8),
}

/// What becomes of a turn that nothing refuses.
#[derive(Clone, Copy, Debug, PartialEq, Eq)]
pub(crate) enum Decision {
    /// It is settled with that change, and the lists follow.
    Settle(Change, Passed),
    /// It awaits that event on that scheduler, and its own words stay as they were.
    Suspend(Place, u8),
}

/// What stands in the way of a start of that module, stuck before spent.
#[tactic(auto, using(crate::proofs::DecisionLaws::obstacle_laws))]
fn obstacle(state: &State, found: Module, place: Place, given: u64) -> Result<(), Rule>
    ensures { result ≡ obstacle_in state.now found place.number given }
{
    if place.is_private() || found.parameters != given || !room_at(state, place, 1) {
        return Err(Rule::Stuck);
    }
    if MOST_THREADS as u64 <= thread_count(state) {
        return Err(Rule::ThreadsSpent);
    }
    Ok(())
}

/// The room for a starter that waits is tested last.
fn decide_start(
    frames: &[u64],
    state: &State,
    t: u64,
    a: Action,
    waits: bool,
    m: u8,
    args: Arguments,
) -> Result<Decision, Rule>
    requires { (1 ≤ t) × (t ≤ most_threads) × SettleWords state.now (t - 1) a.change }
    ensures { result ≡ start_decided (program_of (frames_of frames.now))
        state.now t a waits m args }
{
    let found = module_at(frames, m).ok_or(Rule::Stuck)?;
    let place = place_of(state, t, a);
    obstacle(state, found, place, args.count)?;
    if waits && !room_at(state, place, 2) {
        return Err(Rule::Stuck);
    }
    let passed = Passed::Start(waits, place, found.body, args);
    Ok(Decision::Settle(a.change, passed))
}

/// Where thread t stands after its turn.
fn place_of(state: &State, t: u64, a: Action) -> Place
    requires { (1 ≤ t) × (t ≤ most_threads)
        × (is_place (thread_in state.now (t - 1)).place ≡ true) }
    ensures { result ≡ place_in state.now t a }
{
    let change = a.change;
    place_after(
        change,
        Place::known(state[THREADS_AT + THREAD_LENGTH * (t - 1) as usize]),
    )
}

/// What becomes of that action of thread t, or the rule that refuses its transition.
pub(crate) fn decide(
    frames: &[u64],
    schedulers: &Schedulers,
    state: &State,
    t: u64,
    a: Action,
) -> Result<Decision, Rule>
    requires { CommitWords (program_of (frames_of frames.now)) schedulers.now
        state.now t (Ok a) }
    ensures { result ≡ decided_in (program_of (frames_of frames.now))
        schedulers.now state.now t (Ok a) }
{
    let change = a.change;
    match a.transition {
        Transition::Stays => Ok(Decision::Settle(change, Passed::Keep)),
        Transition::Leaves => Ok(Decision::Settle(change, Passed::Leave)),
        Transition::Joins(q) => {
            if !room_at(state, q, 1) {
                return Err(Rule::Stuck);
            }
            Ok(Decision::Settle(change, Passed::Join(q)))
        },
        Transition::Starts(waits, m, args) => decide_start(frames, state, t, a, waits, m, args),
        Transition::Generates(e) => {
            decide_generate(frames, schedulers, state, a, place_of(state, t, a), e)
        },
        Transition::Awaits(e) => {
            decide_await(frames, schedulers, state, a, place_of(state, t, a), e)
        },
    }
}
