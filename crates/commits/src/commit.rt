//! A turn committed: decided first, then settled once, and the lists follow.
ghost use Rattle.std.specs.Prelude.{◌≡◌, true, ◌≤◌, length, Ok};
ghost use Rattle.language.specs.Limits.{most_threads};
ghost use Rattle.language.specs.Places.{is_scheduler};
ghost use Rattle.text.specs.Frames.{frames_of};
ghost use Rattle.program.specs.Programs.{program_of};
ghost use Rattle.commits.specs.Inner.Commits.{CommitWords, turn_committed_in, obstacle_number};
ghost use Rattle.commits.specs.Inner.Commits.{ChangeWords, any_change};
ghost use Rattle.commits.specs.Inner.Commits.{number_refused, any_turn_committed};
ghost use Rattle.commits.specs.Inner.Commits.{leaves_list, unlisted_in, enlisted_in};
ghost use Rattle.commits.specs.Inner.Commits.{followed_in, awaiting_in, Follows, committed};

use crate::decision::{Decision, Passed, decide};
use crate::leave::leave;
use crate::rule_name::RuleName;
use crate::signal::generate;
use crate::start::start;
use crate::writing::{clear_cells, join, settle};
use acts::act::Action;
use language::Place;
use language::group::Schedulers;
use language::refusal::Rule;
use machine::offset::{AWAITING_FROM, State, WAITING_FACTOR};

/// Whether the thread leaves its list; a starter does where it waits.
fn leaves(passed: Passed) -> bool
    ensures { result ≡ leaves_list passed }
{
    matches!(
        passed,
        Passed::Leave | Passed::Join(_) | Passed::Start(true, _, _, _)
    )
}

/// The active list, where the thread leaves it.
fn unlist(state: &mut State, choice: u64, passed: Passed)
    ensures { state.new ≡ unlisted_in state.old choice passed }
{
    if leaves(passed) {
        leave(state, choice);
    }
}

/// The other lists, where something joins one.
fn enlist(schedulers: &Schedulers, state: &mut State, t: u64, passed: Passed)
    requires { (t ≤ most_threads)
        × Follows schedulers.now state.old passed }
    ensures { state.new ≡ enlisted_in schedulers.now
        state.old t passed }
{
    match passed {
        Passed::Keep | Passed::Leave => {}
        Passed::Join(q) => join(state, q, t),
        Passed::Start(waits, place, body, args) => start(state, t, place, body, waits, args),
        Passed::Wake(q, e) => generate(schedulers, state, q, e),
    }
}

/// The lists after a turn that is settled.
fn follow(schedulers: &Schedulers, state: &mut State, choice: u64, t: u64, passed: Passed)
    requires { (t ≤ most_threads)
        × Follows schedulers.now state.old passed }
    ensures { state.new ≡ followed_in schedulers.now
        state.old choice t passed }
{
    unlist(state, choice, passed);
    enlist(schedulers, state, t, passed);
}

/// Thread t awaits event e on that scheduler; its own words stay.
fn suspend(state: &mut State, choice: u64, t: u64, q: Place, e: u8)
    requires { (t ≤ most_threads)
        × (is_scheduler q.number ≡ true) }
    ensures { state.new
        ≡ awaiting_in state.old choice t q.number e }
{
    leave(state, choice);
    join(state, q, AWAITING_FROM + WAITING_FACTOR * u64::from(e) + t);
}

/// Commits that action of thread t, as `commit` does.
fn commit_action(
    frames: &[u64],
    schedulers: &Schedulers,
    state: &mut State,
    before: usize,
    choice: u64,
    t: u64,
    turn: Action,
) -> Result<(), Rule>
    requires { CommitWords (program_of (frames_of frames.now)) schedulers.now
        state.old t (Ok turn) }
    ensures { committed (obstacle_number result) t state.new
        ≡ turn_committed_in (program_of (frames_of frames.now))
        schedulers.now state.old before choice t (Ok turn) }
{
    match decide(frames, schedulers, state, t, turn) {
        Ok(Decision::Settle(change, passed)) => {
            settle(state, (t - 1) as usize, change);
            follow(schedulers, state, choice, t, passed);
            Ok(())
        },
        Ok(Decision::Suspend(q, e)) => {
            suspend(state, choice, t, q, e);
            Ok(())
        },
        Err(rule) => {
            clear_cells(state, before);
            Err(rule)
        },
    }
}

/// Commits the turn of thread t at that choice. The turn has changed the cells and their count;
/// `before` cells were in use. What refused the turn is handed on; else the rule is named that
/// refuses its transition. A refusal takes back the cells made.
pub fn commit<E: RuleName>(
    frames: &[u64],
    schedulers: &Schedulers,
    state: &mut State,
    before: usize,
    choice: u64,
    t: u64,
    turn: Result<Action, E>,
) -> Result<(), E>
    requires { ChangeWords (program_of (frames_of frames.now)) schedulers.now
        state.old t (any_change turn) }
    ensures { committed (number_refused E.number result) t state.new
        ≡ any_turn_committed E.number (program_of (frames_of frames.now))
        schedulers.now state.old before choice t turn }
{
    match turn {
        Ok(action) => {
            match commit_action(frames, schedulers, state, before, choice, t, action) {
                Ok(()) => Ok(()),
                Err(rule) => Err(E::of_rule(rule)),
            }
        },
        Err(refusal) => {
            clear_cells(state, before);
            Err(refusal)
        },
    }
}
