//! The layout check, refusals 4 to 7: passes over a text's lines, which the reader keeps as numbers.
#![tactic(auto)]

ghost use Rattle.std.specs.Prelude.{◌≡◌, replicate};
ghost use Rattle.language.specs.Limits.{most_lines};
ghost use Rattle.text.specs.Frames.{frames_of};
ghost use Rattle.layout.specs.Inner.Scans.{layout_of};
ghost use Rattle.layout.specs.LaidOut.{Judged};
ghost use Rattle.layout.specs.Inner.Layouts.{laid_as, laid_words, layout_verdict, verdict_of};

use crate::depth::depth;
use crate::in_order::order;
use crate::lines::Lines;
use fields::fault_search::refused_at;
use fields::field::{fields, header};
use language::limit::MOST_LINES;
use language::refusal::{Refusal, Rule, Verdict};
use text::reading::read_into;

mod depth;
pub mod in_order;
pub mod lines;
pub mod uses;

// Refusals 4 to 7. A pass may rely on those before it: the fields on the header, the depths on the
// order.
fn layout_of(lines: Lines) -> Verdict
    ensures { result ≡ layout_of (frames_of lines.entry.words.now) }
{
    refused_at(Rule::WrongHeader, header(lines.words))?;
    refused_at(Rule::WrongField, fields(lines.words))?;
    refused_at(Rule::WrongOrder, order(lines))?;
    refused_at(Rule::TooDeep, depth(lines))
}

/// Refusals 1 to 7 on any text: the one verdict that their rules give, and no other. Its lines go to
/// the first of the lent words, which are all 0 before, as numbers: so many, where nothing is
/// refused.
pub fn lay_into(text: &[u8], words: &mut [u64]) -> Result<usize, Refusal>
    requires { words.old ≡ replicate most_lines 0 }
    ensures computed { laid_as result words.new ≡ laid_words text.now }
    ensures promised { Judged text.now (verdict_of result) }
{
    let count = usize::from(read_into(text, words)?);
    layout_of(Lines {
        words: &words[..count],
    })?;
    Ok(count)
}

/// The same for whoever needs no lines. A text that passes is laid out; 8 to 13 may still refuse it.
pub fn layout_verdict(text: &[u8]) -> Verdict
    ensures computed { result ≡ layout_verdict text.now }
    ensures promised { Judged text.now result }
{
    let mut words = [0u64; MOST_LINES];
    lay_into(text, &mut words)?;
    Ok(())
}
