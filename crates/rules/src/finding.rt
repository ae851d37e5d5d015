//! What the check of the rules finds of a part of a program, or the first fault in that part.
ghost use Rattle.std.specs.Prelude.{◌≡◌, ℕ};
ghost use Rattle.language.specs.Refusals.{rule_number};
ghost use Rattle.language.specs.declared.refusal.Rule.{Rule};
ghost use Rattle.language.specs.Verdicts.{refusal};
ghost use Rattle.rules.specs.Inner.Findings.{fault_of};

use language::effect::Effect;
use language::refusal::{Refusal, Rule};

/// Of an expression: its type, as a type word, and its effect.
#[derive(Clone, Copy, Debug, PartialEq, Eq)]
pub struct Typed {
    pub type_word: u16,
    pub effect: Effect,
}

/// Of an expression, or the first fault in it.
pub type Typing<E = Refusal> = Result<Typed, E>;

/// Of a statement: its effect, and whether it ends at once.
#[derive(Clone, Copy, Debug, PartialEq, Eq)]
pub struct Ending {
    pub effect: Effect,
    pub at_once: bool,
}

/// Of a statement, or the first fault in it.
pub type StatementEffect<E = Refusal> = Result<Ending, E>;

/// What a fault may be: a rule makes one where it refuses, and hands on a child's as it is,
/// whichever that is.
pub trait Fault: Drop {
    ghost of_rule: { Rule → ℕ → Self };

    /// The fault that `frame` breaks `rule`.
    fn of_rule(rule: Rule, frame: u16) -> Self
        ensures { result ≡ of_rule rule frame };
}

impl Fault for Refusal {
    ghost of_rule = { refusal };

    fn of_rule(rule: Rule, frame: u16) -> Self {
        Self { rule, frame }
    }
}

/// The documents' number of the rule, 1 to 21, and the frame. A child's may have any number.
impl Fault for (u8, u16) {
    ghost of_rule = { λ rule frame. (rule_number rule, frame) };

    fn of_rule(rule: Rule, frame: u16) -> Self {
        (rule.number(), frame)
    }
}

/// Of whatever part: that frame breaks that rule.
pub fn refused<T, E: Fault>(rule: Rule, frame: u16) -> Result<T, E>
    ensures { result ≡ fault_of E.of_rule rule frame }
{
    Err(E::of_rule(rule, frame))
}
