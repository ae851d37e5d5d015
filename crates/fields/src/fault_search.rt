//! What a search for a fault finds: the lowest frame that has it, from 0; `None` where no frame has.
ghost use Rattle.std.specs.Prelude.{◌≡◌};
ghost use Rattle.basics.specs.Inner.Searches.{earlier};
ghost use Rattle.fields.specs.Inner.Scans.{refused_at};

use language::refusal::{Refusal, Rule, Verdict};

/// The lower of two frames; where only one search found a frame, that one.
#[tactic(auto, unfolding(basics::specs::Inner::Searches::earlier))]
pub fn lower(a: Option<u16>, b: Option<u16>) -> Option<u16>
    ensures { result ≡ earlier a b }
{
    match (a, b) {
        (Some(i), Some(j)) => Some(i.min(j)),
        (one, None) => one,
        (None, other) => other,
    }
}

/// That the rule is broken, of the frame that a search found; `Ok` where it found none.
pub fn refused_at(rule: Rule, frame: Option<u16>) -> Verdict
    ensures { result ≡ refused_at rule frame }
{
    match frame {
        Some(frame) => Err(Refusal { rule, frame }),
        None => Ok(()),
    }
}
