//! The ready test on the lent words, apart: the only place that says when a wait ends. An entry
//! waits for a family: for a thread, and for those that it began, directly or through others.
ghost use Rattle.std.specs.Prelude.{◌≡◌, ◌<◌, ◌≤◌, length, get_or};
ghost use Rattle.language.specs.Limits.{most_threads};
ghost use Rattle.machine.specs.Offsets.{state_length, thread_count_at};
ghost use Rattle.machine.specs.Shapes.{IsThread};
ghost use Rattle.lists.specs.Inner.Families.{lacks_thread, HasStarters, AddsAncestors};
ghost use Rattle.lists.specs.Inner.Families.{AddsAwaited, LivingFamilies, is_ready_by};

use language::limit::MOST_THREADS;
use machine::offset::{
    AWAITING_FROM, LIVES_FIELD, STARTER_FIELD, State, THREAD_COUNT_AT, THREAD_LENGTH, THREADS_AT,
    WAITING_FACTOR,
};

// A set of threads is a number: bit t - 1 is set where thread t is a member. Here t is a thread's
// number, and no member.
#[tactic(auto, using(crate::proofs::ThreadSets::lacks_laws))]
fn lacks_thread(set: u64, t: u64) -> bool
    ensures { result ≡ lacks_thread set t }
{
    t != 0 && t <= MOST_THREADS as u64 && (set >> (t - 1)) & 1 == 0
}

// The set with thread t and the threads of whose families it is: the one that began it, the one
// that began that one, and so on. With each member the set has the one that began it, so the first
// member that is met ends the climb; in a caller's own state starters may form a circle. A `while`:
// no count leads, each turn goes to the starter of the thread before.
fn with_ancestors(state: &State, set: u64, t: u64) -> u64
    requires { IsThread t × HasStarters state.now set }
    ensures added { AddsAncestors state.now set t result }
    ensures starters { HasStarters state.now result }
{
    let mut found = set;
    let mut at = t;
    while lacks_thread(found, at) {
        found |= 1u64 << (at - 1);
        at = state[THREADS_AT + THREAD_LENGTH * (at - 1) as usize + STARTER_FIELD];
    }
    found
}

// The set with the threads whose waiting entries await thread k + 1: none where it has ended.
fn with_awaiting(state: &State, set: u64, k: usize) -> u64
    requires { (k < most_threads) × HasStarters state.now set }
    ensures added { AddsAwaited state.now set k result }
    ensures starters { HasStarters state.now result }
{
    if state[THREADS_AT + THREAD_LENGTH * k + LIVES_FIELD] == 0 {
        return set;
    }
    with_ancestors(state, set, k as u64 + 1)
}

/// The threads in whose families some thread lives, as a set, found in one climb over all of them.
/// Validation has found at most 64 threads.
pub fn living_families(state: &State) -> u64
    requires { (get_or state.now thread_count_at 0 ≤ most_threads) }
    ensures { LivingFamilies state.now result }
{
    let n = state[THREAD_COUNT_AT] as usize;
    let mut living: u64 = 0;
    for k in 0..n {
        living = with_awaiting(state, living, k);
    }
    living
}

// An entry of a next list is ready: it waits for nobody, or no thread lives in the family for which
// it waits, or it awaits an event, which it tries again.
#[tactic(auto, using(crate::proofs::WaitLaws::ready_laws))]
pub(crate) fn is_ready(living: u64, e: u64) -> bool
    ensures { result ≡ is_ready_by living e }
{
    e < WAITING_FACTOR || AWAITING_FROM <= e || lacks_thread(living, e / WAITING_FACTOR)
}
