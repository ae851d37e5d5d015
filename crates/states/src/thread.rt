//! Threads of the lent words: one more thread, whose words are a struct.
ghost use Rattle.std.specs.Prelude.{◌≡◌, ◌+◌, ◌*◌, ◌<◌, ◌≤◌, length, get_or};
ghost use Rattle.language.specs.Limits.{most_items, most_threads};
ghost use Rattle.machine.specs.Offsets.{state_length, thread_count_at, threads_at, thread_length};
ghost use Rattle.machine.specs.Inner.Blocks.{pasted};
ghost use Rattle.states.specs.Inner.Starts.{new_words};
ghost use Rattle.states.specs.Inner.Threads.{block_of, with_one_more};

use language::Place;
use language::limit::{MOST_ITEMS, MOST_THREADS, MOST_VARIABLES};
use machine::offset::{
    ITEMS_FIELD, LIVES_FIELD, STARTER_FIELD, State, THREAD_COUNT_AT, THREAD_LENGTH, THREADS_AT,
    VARIABLES_FIELD,
};

// Where the words of a continuation and of the variables begin, after their lengths.
pub(crate) const FIRST_ITEM: usize = ITEMS_FIELD + 1;

const FIRST_VARIABLE: usize = VARIABLES_FIELD + 1;

/// A thread: where it stands, which thread started it, 1 while it lives; its continuation from the
/// bottom and its variables from the first, each after its length and with 0 after its members.
// Lengths beside the arrays: these are the words of the state, for C, in their order.
#[derive(Clone, Copy)]
pub struct ThreadWords {
    pub place: u64,
    pub starter: u64,
    pub alive: u64,
    pub items: u64,
    pub continuation: [u64; MOST_ITEMS],
    pub values: u64,
    pub variables: [u64; MOST_VARIABLES],
}

impl ThreadWords {
    /// A thread that stands at that place, has that item and no variables, and lives. The starter
    /// is the number of the thread that started it; 0 of `main`.
    pub fn new(place: Place, starter: u64, item: u64) -> ThreadWords
        ensures { result ≡ new_words place.number starter item }
    {
        let mut continuation = [0; MOST_ITEMS];
        continuation[0] = item;
        ThreadWords {
            place: place.word(),
            starter,
            alive: 1,
            items: 1,
            continuation,
            values: 0,
            variables: [0; MOST_VARIABLES],
        }
    }
}

// Of the items or of the variables: they have the same space. A loop and no `copy_from_slice`, of
// which clang makes a call of memmove: a loader in a boot ROM has none.
fn store_run(state: &mut State, at: usize, run: &[u64; MOST_ITEMS])
    requires { at + most_items ≤ state_length }
    ensures { state.new ≡ pasted state.old at run.now most_items }
{
    for k in 0..MOST_ITEMS {
        state[at + k] = run[k];
    }
}

fn store_thread(state: &mut State, k: usize, th: &ThreadWords)
    requires { k < most_threads }
    ensures { state.new
        ≡ pasted state.old (threads_at + thread_length * k) (block_of th.now) thread_length }
{
    let at = THREADS_AT + THREAD_LENGTH * k;
    state[at] = th.place;
    state[at + STARTER_FIELD] = th.starter;
    state[at + LIVES_FIELD] = th.alive;
    state[at + ITEMS_FIELD] = th.items;
    store_run(state, at + FIRST_ITEM, &th.continuation);
    state[at + VARIABLES_FIELD] = th.values;
    store_run(state, at + FIRST_VARIABLE, &th.variables);
}

/// How many threads there are.
pub fn thread_count(state: &State) -> u64
    ensures { result ≡ get_or state.now thread_count_at 0 }
{
    state[THREAD_COUNT_AT]
}

/// One more thread, the last; where there are 64, nothing changes.
#[tactic(auto, using(crate::proofs::Store::one_laws))]
pub fn add_thread(state: &mut State, th: &ThreadWords)
    ensures { state.new ≡ with_one_more state.old th.now }
{
    let n = state[THREAD_COUNT_AT];
    if MOST_THREADS as u64 <= n {
        return;
    }
    store_thread(state, n as usize, th);
    state[THREAD_COUNT_AT] = n + 1;
}
