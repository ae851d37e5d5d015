//! What refuses a text: anything that has a number and a frame.
ghost use Rattle.std.specs.Prelude.{◌≡◌, ℕ};
ghost use Rattle.language.specs.Refusals.{rule_number};

use language::refusal::Refusal;

/// What refuses, with a number and a frame.
pub trait Numbered: Copy {
    /// Its number.
    ghost number: { Self → ℕ };

    /// Its frame.
    ghost frame: { Self → ℕ };

    /// Its number, 0 to 255; those of rules are 1 to 21.
    fn number(self) -> u8
        ensures { result ≡ number self };

    /// Its frame, 0 to 65,535.
    fn frame(self) -> u16
        ensures { result ≡ frame self };
}

impl Numbered for Refusal {
    ghost number = { λ r. rule_number r.rule };

    ghost frame = { λ r. r.frame };

    fn number(self) -> u8 {
        self.rule.number()
    }

    fn frame(self) -> u16 {
        self.frame
    }
}

/// Any number, with a frame.
impl Numbered for (u8, u16) {
    ghost number = { λ r. r.0 };

    ghost frame = { λ r. r.1 };

    fn number(self) -> u8 {
        self.0
    }

    fn frame(self) -> u16 {
        self.1
    }
}
