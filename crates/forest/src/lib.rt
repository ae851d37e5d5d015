//! The faults of frames in any order: refusals 4, 5, 21, the writer's 6, and 7.
#![tactic(auto)]

ghost use Rattle.std.specs.Prelude.{◌≡◌};
ghost use Rattle.text.specs.Frames.{frames_of};
ghost use Rattle.layout.specs.Inner.Scans.{LineWords};
ghost use Rattle.drawing.specs.Inner.Finds.{form_verdict, drawing_verdict};

use crate::depth::depth_fault;
use crate::shape::shape_fault;
use crate::tree::tree_fault;
use fields::fault_search::refused_at;
use fields::field::{fields, header};
use language::refusal::{Rule, Verdict};
use layout::lines::Lines;

mod cycle;
mod depth;
mod shape;
mod tree;

// 21, 6 and 7. A pass may rely on those before it: the depths on there being trees of the right
// shape. Each makes its own arrays, and none outlives its pass, so that they can share their place
// on the stack.
fn form_of(lines: Lines) -> Verdict
    ensures { result ≡ form_verdict (frames_of lines.entry.words.now) }
{
    refused_at(Rule::WrongTree, tree_fault(lines))?;
    refused_at(Rule::WrongOrder, shape_fault(lines))?;
    refused_at(Rule::TooDeep, depth_fault(lines))
}

/// What refuses a text's lines before they are laid out, with its lowest frame, from 0: 4 and 5,
/// which do not look at the order; then 21, children that form no trees; 6, a child of a wrong
/// class, a frame left over or no `main`; 7, a depth over 24. `Ok` where nothing does.
pub fn drawing_verdict(words: &[u64]) -> Verdict
    requires { LineWords words.now }
    ensures { result ≡ drawing_verdict (frames_of words.now) }
{
    refused_at(Rule::WrongHeader, header(words))?;
    refused_at(Rule::WrongField, fields(words))?;
    form_of(Lines { words })
}
