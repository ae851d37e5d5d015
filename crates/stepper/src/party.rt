//! The party that a choice names.
ghost use Rattle.std.specs.Prelude.{◌≡◌, ◌≤◌, get_or};
ghost use Rattle.language.specs.Limits.{most_threads};
ghost use Rattle.machine.specs.Offsets.{thread_count_at};
ghost use Rattle.stepper.specs.Inner.Files.{acting_in, step_number, nobody_answers};

use language::Place;
use language::refusal::Rule;
use lists::list::first_active;
use machine::offset::{State, THREAD_OWNER_FROM};
use states::party::is_unlinked;

/// What a step comes to, and how many cells it read, stored in and made: 0 where it is refused.
// Not the calls' `Result<Done, Rule>`: the edit refused_step_counts writes a refused step with its
// accesses, and the contracts of `turn` and `step_valid` refuse it.
#[derive(Clone, Copy, Debug, PartialEq, Eq)]
pub struct StepAnswer {
    /// The rule, one of 15 to 20, that refuses it.
    pub refusal: Option<Rule>,
    /// The acting thread, 1 to 64; 0, the word of the listings and of C, where none acts.
    pub thread: u8,
    pub accesses: u16,
}

impl StepAnswer {
    /// The documents' number of the refusal; 0 where the step is done.
    pub fn number(self) -> u8
        ensures { result ≡ step_number self.refusal }
    {
        match self.refusal {
            Some(rule) => rule.number(),
            None => 0,
        }
    }
}

/// No thread acts, and so there is no access.
pub(crate) fn nobody(refusal: Option<Rule>) -> StepAnswer
    ensures { result ≡ nobody_answers refusal }
{
    StepAnswer {
        refusal,
        thread: 0,
        accesses: 0,
    }
}

/// The thread that acts at a choice: a scheduler's first active one, or the unlinked one that the
/// choice names; 0 where none acts.
// 0, and not an Option, as `first_active` reads it from the words and as `acting_in` says it.
pub(crate) fn acting_thread(schedulers: u8, state: &State, choice: u64) -> u64
    requires { get_or state.now thread_count_at 0 ≤ most_threads }
    ensures { result ≡ acting_in schedulers state.now choice }
{
    if Place::is_scheduler_in_file(choice, schedulers) {
        return first_active(state, Place::known(choice));
    }
    if is_unlinked(state, choice) {
        return choice - THREAD_OWNER_FROM;
    }
    0
}
