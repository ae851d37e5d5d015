//! The check of a text: refusals 1 to 13.
ghost use Rattle.std.specs.Prelude.{◌≡◌};
ghost use Rattle.text.specs.Frames.{frames_of};
ghost use Rattle.program.specs.Programs.{program_of};
ghost use Rattle.rules.specs.Inner.Checking.{rules_of};
ghost use Rattle.checker.specs.Verdict.{verdict, Checked};
ghost use Rattle.checker.specs.Inner.Frames.{FileIn};

use crate::module::modules_rule;
use language::limit::MOST_LINES;
use language::refusal::Verdict;
use layout::lay_into;
use program::group::labels_of;
use program::shared::shared_types;

/// The first broken rule of a laid-out file.
pub fn rules_of(frames: &[u64]) -> Verdict
    requires { FileIn frames.now }
    ensures { result ≡ rules_of (program_of (frames_of frames.now)) }
{
    let labels = labels_of(frames);
    let t = shared_types(frames);
    // Out of the struct first: lent from within it, the types left a goal that two tries did not
    // close.
    let n = t.count;
    let types = t.types;
    modules_rule(frames, &types[..n], &labels)
}

/// What documents 01 and 02 say of any bytes: the one verdict that the rules give, and no other.
pub fn check(text: &[u8]) -> Verdict
    ensures computed { result ≡ verdict text.now }
    ensures promised { Checked text.now result }
{
    let mut words = [0u64; MOST_LINES];
    let n = lay_into(text, &mut words)?;
    rules_of(&words[..n])
}
