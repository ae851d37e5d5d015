//! The writer: frames in any order, laid out as the check wants them.
#![tactic(auto)]

ghost use Rattle.std.specs.Prelude.{◌≡◌};
ghost use Rattle.drawing.specs.Writings.{as_writing};
ghost use Rattle.drawing.specs.Answers.{writing, Answered};
ghost use Rattle.layout.specs.Inner.Scans.{LineWords};
ghost use Rattle.writer.specs.Inner.Placing.{arranged};

use crate::root::lay_all;
use forest::drawing_verdict;
use language::limit::{LINE_LENGTH, MOST_LINES};
use language::refusal::{Refusal, Rule, Verdict};
use text::reading::read_into;

mod child;
mod emit;
mod line;
mod root;

// What `arrange` gives of a text's lines, as numbers: 4, 5, 21, 6, 7, 14, or the lines laid out.
fn arrange_lines(words: &[u64], out: &mut [u8]) -> Verdict
    requires { LineWords words.now }
    ensures { as_writing result out.new
        ≡ arranged words.now out.old }
{
    drawing_verdict(words)?;
    if out.len() != LINE_LENGTH * words.len() {
        return Err(Refusal {
            rule: Rule::WrongState,
            frame: 0,
        });
    }
    lay_all(words, out);
    Ok(())
}

/// The text's lines laid out into a buffer of the text's length: children before parents and just
/// before them, renumbered; declarations and modules in their order. 1 to 5, 21, 6 and 7 are
/// answered with the frame, by its number in the text, from 0; then 14, a buffer of another length,
/// with frame 0. A refusal leaves the buffer as it was.
pub fn arrange(text: &[u8], out: &mut [u8]) -> Verdict
    ensures computed { as_writing result out.new
        ≡ writing text.now out.old }
    ensures promised { Answered text.now out.old
        (as_writing result out.new) }
{
    let mut words = [0u64; MOST_LINES];
    let count = usize::from(read_into(text, &mut words)?);
    arrange_lines(&words[..count], out)
}
