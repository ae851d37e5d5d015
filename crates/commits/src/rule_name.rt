//! What names a rule, for a turn that a rule refuses.
ghost use Rattle.std.specs.Prelude.{◌≡◌, ℕ};
ghost use Rattle.language.specs.Refusals.{rule_number};

use language::refusal::Rule;

/// What names a rule: the rule itself, or its number as a byte. A byte may be no rule's number.
pub trait RuleName: Copy {
    /// The number that it names.
    ghost number: { Self → ℕ };

    /// The name of that rule.
    fn of_rule(rule: Rule) -> Self
        ensures { number result ≡ rule_number rule };
}

impl RuleName for Rule {
    ghost number = { rule_number };

    fn of_rule(rule: Rule) -> Rule {
        rule
    }
}

impl RuleName for u8 {
    ghost number = { λ n. n };

    fn of_rule(rule: Rule) -> u8 {
        rule.number()
    }
}
