//! Refusal 21: children that form no trees.
ghost use Rattle.std.specs.Prelude.{◌≡◌, ◌<◌, ◌≤◌, length, take};
ghost use Rattle.basics.specs.Inner.Searches.{lowest};
ghost use Rattle.text.specs.Frames.{frames_of};
ghost use Rattle.program.specs.Trees.{frame_at};
ghost use Rattle.layout.specs.Inner.Uses.{CountsUses};
ghost use Rattle.drawing.specs.Inner.Finds.{is_below, tree_fault_at};
ghost use Rattle.forest.specs.Inner.FrameTests.{has_child_from, is_use_fault};
ghost use Rattle.forest.specs.Inner.FrameTests.{is_cycle_fault};
ghost use Rattle.forest.specs.Inner.Walks.{NoCycleBefore};

use crate::cycle::{Met, on_cycle};
use fields::fault_search::lower;
use language::frame::Frame;
use language::limit::MOST_LINES;
use layout::lines::Lines;
use layout::uses::{TWICE, count_uses};
use program::frames::{Children, children_of, frame_at};

// f names a child from frame n on. Where there are n frames, that is one that there is not.
#[tactic(auto, using(crate::proofs::AnyChild::from_laws))]
fn has_child_from(n: usize, f: Frame) -> bool
    ensures { result ≡ has_child_from n f }
{
    match children_of(f) {
        Children::Nothing => false,
        Children::One(_, a) => n <= usize::from(a),
        Children::Two(_, a, _, b) => n <= usize::from(a) || n <= usize::from(b),
        Children::Three(_, a, _, b, _, c) => {
            n <= usize::from(a) || n <= usize::from(b) || n <= usize::from(c)
        }
    }
}

// Frame i names a child that there is not, or is used twice.
#[tactic(auto, using(crate::proofs::TreePass::use_test_laws))]
fn is_use_fault(lines: Lines, counts: &[u8; MOST_LINES], i: usize) -> bool
    requires { (i < length lines.words.now)
        × CountsUses (frames_of lines.words.now) counts.now }
    ensures { result
        ≡ is_use_fault (frames_of lines.entry.words.now) i
        (frame_at (frames_of lines.entry.words.now) i) }
{
    has_child_from(lines.words.len(), frame_at(lines.words, i)) || counts[i] == TWICE
}

// The lowest such frame.
fn use_fault(lines: Lines) -> Option<u16>
    ensures { result
        ≡ lowest (is_use_fault (frames_of lines.entry.words.now)) 0
        (frames_of lines.entry.words.now) }
{
    let mut counts = [0u8; MOST_LINES];
    count_uses(lines.words, &mut counts);
    (0..lines.words.len() as u16).find(|i| is_use_fault(lines, &counts, usize::from(*i)))
}

// Frame i is on a cycle. As no frame before it is, a frame whose children all come before it is on
// none, and nothing is looked for.
#[tactic(auto, using(crate::proofs::CycleReach::low_children))]
fn is_cycle_fault(lines: Lines, i: usize, met: &mut Met) -> bool
    requires { (i < length lines.words.now) × NoCycleBefore (frames_of lines.words.now) i }
    ensures { result ≡ is_below (frames_of lines.entry.words.now) i i }
{
    has_child_from(i, frame_at(lines.words, i)) && on_cycle(lines, i, met)
}

// The lowest of the first n frames that is on a cycle.
#[tactic(auto, using(crate::proofs::TreePass::cycle_laws))]
fn cycle_fault(lines: Lines, n: usize) -> Option<u16>
    requires { n ≤ length lines.words.now }
    ensures { result
        ≡ lowest (is_cycle_fault (frames_of lines.entry.words.now)) 0
        (take n (frames_of lines.entry.words.now)) }
{
    let mut met = Met::new();
    for i in 0..n {
        if is_cycle_fault(lines, i, &mut met) {
            return Some(i as u16);
        }
    }
    None
}

// The lowest frame that names a child that there is not, is used twice or is on a cycle. Cycles are
// dear to find, and are looked for only before the lowest frame with one of the other faults. Each
// of the two passes has its arrays for itself, so that they may share their place on the stack.
pub(crate) fn tree_fault(lines: Lines) -> Option<u16>
    ensures { result ≡ tree_fault_at (frames_of lines.entry.words.now) }
{
    let fault = use_fault(lines);
    let before = fault.map_or(lines.words.len(), usize::from);
    lower(fault, cycle_fault(lines, before))
}
