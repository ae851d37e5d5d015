//! The change that a turn names, made where the thread's words lie. Thread k counts from 0.
ghost use Rattle.std.specs.Prelude.{◌≡◌, ◌-◌, ◌<◌, ◌≤◌};
ghost use Rattle.language.specs.Limits.{most_variables, most_items, most_threads};
ghost use Rattle.states.specs.Inner.Threads.{thread_in, put_thread};
ghost use Rattle.states.specs.Inner.Stacks.{push_item};
ghost use Rattle.acts.specs.declared.act.Change.TheVariants.{Let, Enter};
ghost use Rattle.acts.specs.Inner.Transitions.{changed, popped};
ghost use Rattle.commits.specs.Inner.Commits.{place_after, RoomIn, ChangeSpace};

use acts::act::Change;
use language::Place;
use machine::offset::{
    BACK_FROM, DROP_WORD, ITEMS_FIELD, State, THREAD_LENGTH, THREADS_AT, VARIABLES_FIELD,
};
use states::stack::{end_thread, move_to, pop, push};

/// The top item off the continuation; where there is none, nothing changes.
#[tactic(auto, using(crate::proofs::ChangeLaws::taken_none, crate::proofs::ChangeLaws::taken))]
pub(crate) fn take_item(state: &mut State, k: usize)
    requires { (k < most_threads) × ((thread_in state.old k).items ≤ most_items) }
    ensures { state.new
        ≡ put_thread state.old k (popped (thread_in state.old k)) }
{
    if state[THREADS_AT + THREAD_LENGTH * k + ITEMS_FIELD] != 0 {
        pop::<ITEMS_FIELD>(state, k);
    }
}

fn push_two(state: &mut State, k: usize, top: u64, below: u64)
    requires { (k < most_threads) × ((thread_in state.old k).items < most_items - 1) }
    ensures { state.new ≡ put_thread state.old k
        (push_item top (push_item below (thread_in state.old k))) }
{
    push::<ITEMS_FIELD>(state, k, below);
    push::<ITEMS_FIELD>(state, k, top);
}

/// 16: the variable, and its body above a drop of it.
fn push_let(state: &mut State, k: usize, value: u64, body: u64)
    requires { (k < most_threads) × RoomIn (Let value body) (thread_in state.old k) }
    ensures { state.new ≡ put_thread state.old k
        (changed (Let value body) (thread_in state.old k)) }
{
    push::<VARIABLES_FIELD>(state, k, value);
    push_two(state, k, body, DROP_WORD);
}

/// 12: to place q, with the body above 'back to here'.
fn enter(state: &mut State, k: usize, q: Place, body: u64)
    requires { ChangeSpace state.old k (Enter q body) }
    ensures { state.new ≡ put_thread state.old k
        (changed (Enter q body) (thread_in state.old k)) }
{
    let from = state[THREADS_AT + THREAD_LENGTH * k];
    push_two(state, k, body, BACK_FROM + from);
    move_to(state, k, q);
}

pub(crate) fn change_thread(state: &mut State, k: usize, change: Change)
    requires { ChangeSpace state.old k change
        × ((thread_in state.old k).values ≤ most_variables) }
    ensures { state.new ≡ put_thread state.old k
        (changed change (thread_in state.old k)) }
{
    match change {
        Change::Same => {}
        Change::Item(a) => push::<ITEMS_FIELD>(state, k, a),
        Change::Items(top, below) => push_two(state, k, top, below),
        Change::Let(value, body) => push_let(state, k, value, body),
        Change::Drop => pop::<VARIABLES_FIELD>(state, k),
        Change::Move(q) => move_to(state, k, q),
        Change::Enter(q, body) => enter(state, k, q, body),
        Change::End => end_thread(state, k),
    }
}

/// Where a thread that stands at that place stands after the change.
pub(crate) fn place_after(change: Change, place: Place) -> Place
    ensures { result ≡ place_after change place }
{
    match change {
        Change::Move(q) | Change::Enter(q, _) => q,
        _ => place,
    }
}
