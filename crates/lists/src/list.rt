//! A scheduler's active list and next list in the lent words.
// That a list fits its space (`ListsFit`) is no type's invariant: the words are the caller's, for C.
// Nor is a scheduler a type beside `Place`: document 01 names one type of places, with constructors.
ghost use Rattle.std.specs.Prelude.{◌≡◌, true, ◌+◌, ◌-◌, ◌*◌, ◌≤◌, leb, length, get_or};
ghost use Rattle.language.specs.Places.{home, is_scheduler};
ghost use Rattle.language.specs.Limits.{most_threads};
ghost use Rattle.machine.specs.Offsets.{state_length, schedulers_at, scheduler_length};
ghost use Rattle.machine.specs.Offsets.{list_length, next_list_at, threads_at};
ghost use Rattle.machine.specs.Inner.Blocks.{part, pasted};
ghost use Rattle.machine.specs.Words.{words_at};
ghost use Rattle.lists.specs.Inner.Families.{LivingFamilies};
ghost use Rattle.lists.specs.Inner.Lists.{shifted, without_first, with_last, ListWords};
ghost use Rattle.lists.specs.Inner.Lists.{is_awaiting_word, is_wanted, wanted_words};
ghost use Rattle.lists.specs.Inner.Lists.{partitioned_in, with_moved, with_instant_ended};
ghost use Rattle.lists.specs.Inner.Lists.{ready_words, with_woken, active_with};

use crate::wait::is_ready;
use language::Place;
use language::limit::MOST_THREADS;
use machine::offset::{
    AWAITING_FROM, LIST_LENGTH, SCHEDULER_LENGTH, SCHEDULERS_AT, State, WAITING_FACTOR,
};

// Where the scheduler's active list begins: its count, then the space of 64 threads.
fn active_list(q: Place) -> usize
    requires { is_scheduler q.number ≡ true }
    ensures place { result ≡ schedulers_at + scheduler_length * (q.number - home) }
    ensures space { result + scheduler_length ≤ threads_at }
{
    SCHEDULERS_AT + SCHEDULER_LENGTH * q.index()
}

// Where its next list begins, right after that space: its count, then the space of 64 entries.
fn next_list(q: Place) -> usize
    requires { is_scheduler q.number ≡ true }
    ensures place { result ≡ next_list_at + scheduler_length * (q.number - home) }
    ensures space { result + list_length ≤ threads_at }
{
    active_list(q) + LIST_LENGTH
}

/// The first active thread; 0 where there is none.
// No `Option`: the 0 is the word itself, which the definitions read too (`active_on`).
pub fn first_active(state: &State, q: Place) -> u64
    requires { is_scheduler q.number ≡ true }
    ensures { result ≡ get_or state.now
        (schedulers_at + 1 + scheduler_length * (q.number - home)) 0 }
{
    state[active_list(q) + 1]
}

/// So many more entries have room in the next list.
#[tactic(auto, using(crate::proofs::ListLaws::room_laws))]
pub fn has_room(state: &State, q: Place, more: u8) -> bool
    requires { is_scheduler q.number ≡ true }
    ensures { result
        ≡ leb
        (get_or state.now (next_list_at + scheduler_length * (q.number - home)) 0 + more)
        most_threads }
{
    let n = state[next_list(q)];
    n <= MOST_THREADS as u64 && n + u64::from(more) <= MOST_THREADS as u64
}

// Each of the n words at that place moves to the index below it; the last is 0.
#[tactic(auto, using(crate::proofs::ListLaws::shift_copied))]
fn shift(state: &mut State, at: usize, n: usize)
    requires { (1 ≤ n) × (at + n ≤ state_length) }
    ensures { state.new ≡ pasted state.old at
        (shifted (part state.old at n)) n }
{
    let last = at + n - 1;
    state.copy_within(at + 1..at + n, at);
    state[last] = 0;
}

/// The first active thread leaves the list, each other to the index below it; an empty list stays,
/// and so does a count that is none of a list.
#[tactic(auto, using(crate::proofs::ListLaws::first_laws))]
pub fn drop_first(state: &mut State, q: Place)
    requires { is_scheduler q.number ≡ true }
    ensures { state.new ≡ without_first state.old (q.number - home) }
{
    let at = active_list(q);
    let n = state[at];
    if n == 0 || n > MOST_THREADS as u64 {
        return;
    }
    shift(state, at + 1, n as usize);
    state[at] = n - 1;
}

/// The entry goes to the end of the next list; a full list stays as it is.
#[tactic(auto, using(crate::proofs::ListLaws::last_laws))]
pub fn append(state: &mut State, q: Place, entry: u64)
    requires { is_scheduler q.number ≡ true }
    ensures { state.new ≡ with_last state.old (q.number - home) entry }
{
    let at = next_list(q);
    let n = state[at];
    if MOST_THREADS as u64 <= n {
        return;
    }
    state[at + 1 + n as usize] = entry;
    state[at] = n + 1;
}

// The entries of a next list that become active: the ready ones, where that is the set of threads
// in whose families some thread lives; or those that await the event. No closure in its place: a
// function generic in a test cannot say by an equation which entries it moved.
#[derive(Clone, Copy, Debug, PartialEq, Eq)]
enum Wanted {
    Ready(u64),
    Awaiting(u8),
}

// The entry awaits the event.
#[tactic(auto, using(crate::proofs::PartitionLaws::awaits_laws))]
fn awaits(entry: u64, event: u8) -> bool
    ensures { result ≡ is_awaiting_word event entry }
{
    AWAITING_FROM <= entry && (entry - AWAITING_FROM) / WAITING_FACTOR == u64::from(event)
}

fn is_wanted(wanted: Wanted, entry: u64) -> bool
    ensures { result ≡ is_wanted wanted entry }
{
    match wanted {
        Wanted::Ready(living) => is_ready(living, entry),
        Wanted::Awaiting(event) => awaits(entry, event),
    }
}

// Partitions the entries of the next list after that active list, in place and in order: the
// threads of the wanted ones go to the active list, after its threads, the others stay, without
// gaps, and 0 stands in the words that they leave. How many go. Each list is within its space.
fn partition_entries(state: &mut State, active: usize, wanted: Wanted) -> u64
    requires { ListWords state.old (active + list_length)
        × (active + scheduler_length ≤ threads_at)
        × (get_or state.old active 0 + length (wanted_words (is_wanted wanted)
        (words_at state.old (active + list_length))) ≤ most_threads) }
    ensures count { result ≡ length (wanted_words (is_wanted wanted)
        (words_at state.old (active + list_length))) }
    ensures words { state.new ≡ partitioned_in (is_wanted wanted) state.old
        active (get_or state.old active 0) }
{
    let next = active + LIST_LENGTH;
    let n = state[next] as usize;
    let first = active + 1 + state[active] as usize;
    let mut r: usize = 0;
    for j in 0..n {
        let e = state[next + 1 + j];
        let moves = is_wanted(wanted, e);
        state[next + 1 + j] = 0;
        if moves {
            state[first + r] = e % WAITING_FACTOR;
            r += 1;
        } else {
            state[next + 1 + (j - r)] = e;
        }
    }
    r as u64
}

// The wanted entries become active: how many they are. Where there is none, nothing changes.
fn move_entries(state: &mut State, q: Place, wanted: Wanted) -> u64
    requires { ListWords state.old (next_list_at + scheduler_length * (q.number - home))
        × (is_scheduler q.number ≡ true)
        × (active_with (is_wanted wanted) state.old (q.number - home) ≤ most_threads) }
    ensures count { result ≡ length (wanted_words (is_wanted wanted)
        (words_at state.old (next_list_at + scheduler_length * (q.number - home)))) }
    ensures words { state.new
        ≡ with_moved (is_wanted wanted) state.old (q.number - home) }
{
    let active = active_list(q);
    let next = active + LIST_LENGTH;
    let m = state[active];
    let n = state[next];
    let r = partition_entries(state, active, wanted);
    state[active] = m + r;
    state[next] = n - r;
    r
}

/// The instant of a scheduler with no active thread ends: how many entries were ready, where that
/// is the set of threads in whose families some thread lives. Where none was, nothing changes.
/// Validation has found at most 64 threads, and a list within its space.
pub fn end_instant(state: &mut State, q: Place, living: u64) -> u64
    requires { ListWords state.old (next_list_at + scheduler_length * (q.number - home))
        × (is_scheduler q.number ≡ true)
        × (get_or state.old (schedulers_at + scheduler_length * (q.number - home)) 0 ≡ 0)
        × LivingFamilies state.old living }
    ensures count { result ≡ length (ready_words state.old
        (words_at state.old (next_list_at + scheduler_length * (q.number - home)))) }
    ensures words { state.new
        ≡ with_instant_ended state.old (q.number - home) }
{
    move_entries(state, q, Wanted::Ready(living))
}

// How many threads there are in that active list and, awaiting the event, in the next list after
// it.
fn active_with(state: &State, active: usize, event: u8) -> u64
    requires { ListWords state.now (active + list_length)
        × (active + scheduler_length ≤ threads_at)
        × (get_or state.now active 0 ≤ most_threads) }
    ensures { result ≡ get_or state.now active 0
        + length (wanted_words (is_awaiting_word event)
        (words_at state.now (active + list_length))) }
{
    let next = active + LIST_LENGTH;
    let n = state[next] as usize;
    let mut threads = state[active];
    for j in 0..n {
        if awaits(state[next + 1 + j], event) {
            threads += 1;
        }
    }
    threads
}

/// The threads that await the event on that scheduler have room in its active list.
#[tactic(auto, using(crate::proofs::PartitionLaws::wake_room_laws))]
pub fn has_room_to_wake(state: &State, q: Place, event: u8) -> bool
    requires { ListWords state.now (next_list_at + scheduler_length * (q.number - home))
        × (is_scheduler q.number ≡ true)
        × (get_or state.now (schedulers_at + scheduler_length * (q.number - home)) 0
        ≤ most_threads) }
    ensures { result
        ≡ leb (active_with (is_awaiting_word event) state.now (q.number - home))
        most_threads }
{
    let active = active_list(q);
    let entries = state[active + LIST_LENGTH];
    // Where all entries have room, none has to be asked.
    state[active] + entries <= MOST_THREADS as u64
        || active_with(state, active, event) <= MOST_THREADS as u64
}

/// They go to the end of the active list, in the order of the next list.
pub fn wake(state: &mut State, q: Place, event: u8)
    requires { ListWords state.old (next_list_at + scheduler_length * (q.number - home))
        × (is_scheduler q.number ≡ true)
        × (active_with (is_awaiting_word event) state.old (q.number - home) ≤ most_threads) }
    ensures { state.new
        ≡ with_woken state.old (q.number - home) event }
{
    let _moved = move_entries(state, q, Wanted::Awaiting(event));
}
