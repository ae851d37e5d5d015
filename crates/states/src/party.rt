//! Which parties there are: the threads that are unlinked now (the schedulers are the file's).
ghost use Rattle.std.specs.Prelude.{◌≡◌, ◌<◌, ◌≤◌, get_or};
ghost use Rattle.language.specs.Limits.{most_threads};
ghost use Rattle.machine.specs.Offsets.{thread_count_at};
ghost use Rattle.states.specs.Inner.Parties.{is_unlinked_thread, is_unlinked_word};

use language::Place;
use machine::offset::{
    LIVES_FIELD, State, THREAD_COUNT_AT, THREAD_LENGTH, THREAD_OWNER_FROM, THREADS_AT,
};

// Thread k, from 0, is private and has not ended.
fn is_unlinked_thread(state: &State, k: usize) -> bool
    requires { k < most_threads }
    ensures { result ≡ is_unlinked_thread state.now k }
{
    let at = THREADS_AT + THREAD_LENGTH * k;
    state[at] == Place::PRIVATE.word() && state[at + LIVES_FIELD] != 0
}

/// The choice names a thread, which is private and has not ended. Validation has found at most 64.
#[tactic(auto, using(crate::proofs::PartyLaws::unlinked_split))]
pub fn is_unlinked(state: &State, choice: u64) -> bool
    requires { get_or state.now thread_count_at 0 ≤ most_threads }
    ensures { result ≡ is_unlinked_word state.now choice }
{
    THREAD_OWNER_FROM < choice
        && choice - THREAD_OWNER_FROM <= state[THREAD_COUNT_AT]
        && is_unlinked_thread(state, (choice - THREAD_OWNER_FROM - 1) as usize)
}
