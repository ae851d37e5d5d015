//! What the calls of the stepper answer.
ghost use Rattle.std.specs.Prelude.{◌≡◌};
ghost use Rattle.stepper.specs.declared.answer.CallRefusal.TheVariants.{Text};
ghost use Rattle.stepper.specs.Answers.{answer_to, said};
ghost use Rattle.stepper.specs.Inner.Files.{step_number};

use crate::party::StepAnswer;
use language::refusal::{Refusal, Rule};

/// A call that is done.
#[derive(Clone, Copy, Debug, PartialEq, Eq)]
pub struct Done {
    /// The acting thread, 1 to 64; 0 at the end of an instant and for a fresh state, where none
    /// acts.
    // 0 is the word for none of the listings and of C, and of the definitions: an Option would
    // only be written back as it in `answer_thread`.
    pub thread: u8,
    /// How many cells the step read, stored in and made.
    pub accesses: u16,
}

/// Why a call is refused.
#[derive(Clone, Copy, Debug, PartialEq, Eq)]
pub enum CallRefusal {
    /// The text is, by one of the rules 1 to 7.
    Text(Refusal),
    /// The call is, by one of 14 to 20; the acting thread, 1 to 64, or 0 where none acts.
    Call { rule: Rule, thread: u8 },
}

impl Done {
    /// No thread acted.
    pub(crate) const NOTHING: Done = Done {
        thread: 0,
        accesses: 0,
    };
}

impl CallRefusal {
    /// A lent buffer has another length, or the state is none of the file's.
    pub(crate) const WRONG_STATE: CallRefusal = CallRefusal::Call {
        rule: Rule::WrongState,
        thread: 0,
    };
}

impl From<Refusal> for CallRefusal {
    ghost from_gives = { λ refusal e. e ≡ Text refusal };

    fn from(refusal: Refusal) -> CallRefusal {
        CallRefusal::Text(refusal)
    }
}

/// What a call answers.
pub type Answer = Result<Done, CallRefusal>;

/// A step's answer as the call's: a refusal tells no accesses.
#[tactic(auto, using(crate::proofs::AnswerLaws::answered_laws))]
pub(crate) fn answer_of(s: StepAnswer) -> Answer
    ensures { said result ≡ answer_to (step_number s.refusal) s.thread s.accesses }
{
    match s.refusal {
        None => Ok(Done {
            thread: s.thread,
            accesses: s.accesses,
        }),
        Some(rule) => Err(CallRefusal::Call {
            rule,
            thread: s.thread,
        }),
    }
}
