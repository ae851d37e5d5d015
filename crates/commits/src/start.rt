//! A start that nothing refuses: the new thread is the last, and the last in the starter's next
//! list; a starter that waits stands after it.
ghost use Rattle.std.specs.Prelude.{◌≡◌, ◌≤◌, length};
ghost use Rattle.language.specs.Limits.{most_threads};
ghost use Rattle.commits.specs.Inner.Commits.{new_at, started_on, StartWords};

use crate::writing::join;
use acts::act::Arguments;
use language::Place;
use machine::offset::{State, WAITING_FACTOR};
use states::thread::{ThreadWords, add_thread, thread_count};

/// The new thread, which thread t starts: at the starter's place, its continuation the module's
/// body, its variables the arguments.
fn new_thread(args: Arguments, place: Place, t: u64, body: u64) -> ThreadWords
    ensures { result ≡ new_at args place t body }
{
    let mut thread = ThreadWords::new(place, t, body);
    thread.values = args.count;
    thread.variables[0] = args.first;
    thread.variables[1] = args.second;
    thread
}

/// 13, and 14, where the starter waits. It stands at that place, a scheduler.
// A function of its own: inlined, a new thread's words make each step's frame 728 bytes, not 392.
#[inline(never)]
pub(crate) fn start(
    state: &mut State,
    t: u64,
    place: Place,
    body: u64,
    waits: bool,
    args: Arguments,
)
    requires { (t ≤ most_threads)
        × StartWords state.old place }
    ensures { state.new
        ≡ started_on state.old t place body waits args }
{
    let new = thread_count(state) + 1;
    add_thread(state, &new_thread(args, place, t, body));
    join(state, place, new);
    if waits {
        join(state, place, WAITING_FACTOR * new + t);
    }
}
