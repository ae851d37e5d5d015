//! A thread's continuation, variables and place, changed where its words lie. Thread k counts from
//! 0: it is thread k + 1 of the state. Whoever calls has tested that there is an item or a variable
//! to take off, or room for one more.
// An index and its bound in a clause, as of a slice: a type for it would be taken apart at each word.
ghost use Rattle.std.specs.Prelude.{◌≡◌, ◌-◌, ◌<◌, ◌≤◌, get_or, true};
ghost use Rattle.language.specs.Limits.{most_threads, most_items};
ghost use Rattle.states.specs.Inner.Threads.{thread_in, put_thread};
ghost use Rattle.states.specs.Inner.Stacks.{is_part, most, count, push, pop, move_to, ended};
ghost use Rattle.states.specs.Inner.Stacks.{SomeWithin};

use crate::thread::FIRST_ITEM;
use language::Place;
use machine::offset::{ITEMS_FIELD, LIVES_FIELD, State, THREAD_LENGTH, THREADS_AT};

/// The item on top of the continuation, its last word; 0 where there is none.
// No `Option`: the 0 is the word itself, and `top_in` of the definitions gives it too.
#[tactic(auto, using(crate::proofs::StackWords::top_laws))]
pub fn top_item(state: &State, k: usize) -> u64
    requires { (k < most_threads) × ((thread_in state.now k).items ≤ most_items) }
    ensures { result ≡ get_or (thread_in state.now k).continuation
        ((thread_in state.now k).items - 1) 0 }
{
    let at = THREADS_AT + THREAD_LENGTH * k;
    let n = state[at + ITEMS_FIELD];
    if n == 0 {
        return state[at + FIRST_ITEM];
    }
    state[at + ITEMS_FIELD + n as usize]
}

/// One more word at the end of the items or of the variables of a thread: PART is where that list
/// lies in the thread's words, `ITEMS_FIELD` or `VARIABLES_FIELD`. It has room.
#[tactic(auto, using(crate::proofs::StackWords::pushed))]
pub fn push<const PART: usize>(state: &mut State, k: usize, word: u64)
    requires { (k < most_threads) × (is_part PART ≡ true)
        × (count PART (thread_in state.old k) < most PART) }
    ensures { state.new
        ≡ put_thread state.old k (push PART word (thread_in state.old k)) }
{
    let at = THREADS_AT + THREAD_LENGTH * k + PART;
    let n = state[at];
    state[at + 1 + n as usize] = word;
    state[at] = n + 1;
}

/// The last word of that list is taken off: there is one.
#[tactic(auto, using(crate::proofs::StackWords::popped))]
pub fn pop<const PART: usize>(state: &mut State, k: usize)
    requires { (k < most_threads) × (is_part PART ≡ true)
        × SomeWithin (most PART) (count PART (thread_in state.old k)) }
    ensures { state.new
        ≡ put_thread state.old k (pop PART (thread_in state.old k)) }
{
    let at = THREADS_AT + THREAD_LENGTH * k + PART;
    let n = state[at];
    state[at + n as usize] = 0;
    state[at] = n - 1;
}

/// The thread stands at that place.
#[tactic(auto, using(crate::proofs::StackWords::stack_laws))]
pub fn move_to(state: &mut State, k: usize, place: Place)
    requires { k < most_threads }
    ensures { state.new ≡ put_thread state.old k
        (move_to place.number (thread_in state.old k)) }
{
    state[THREADS_AT + THREAD_LENGTH * k] = place.word();
}

/// The thread has ended.
#[tactic(auto, using(crate::proofs::StackWords::stack_laws))]
pub fn end_thread(state: &mut State, k: usize)
    requires { k < most_threads }
    ensures { state.new
        ≡ put_thread state.old k (ended (thread_in state.old k)) }
{
    state[THREADS_AT + THREAD_LENGTH * k + LIVES_FIELD] = 0;
}
