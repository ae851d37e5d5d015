//! The writer's refusal 6: the shape of the trees, whatever the order of frames.
ghost use Rattle.std.specs.Prelude.{◌≡◌, ◌&&◌, ◌||◌, eqb};
ghost use Rattle.basics.specs.Inner.Searches.{lowest};
ghost use Rattle.language.specs.Kinds.{class_of, child};
ghost use Rattle.text.specs.Frames.{frames_of};
ghost use Rattle.program.specs.Trees.{frame_at};
ghost use Rattle.layout.specs.Order.{has_class};
ghost use Rattle.drawing.specs.Inner.Finds.{wrong_class, shape_fault_at};
ghost use Rattle.forest.specs.Inner.FrameTests.{has_wrong_child, has_class_fault, is_main_fault};

use fields::fault_search::lower;
use language::frame::Frame;
use language::kind::Class;
use language::limit::MOST_LINES;
use layout::in_order::is_left;
use layout::lines::Lines;
use layout::uses::count_uses;
use program::frames::{Children, children_of, frame_at};

// The class of frame v. Where there is no such frame it is neither, so that no child's class fits.
fn class_at(words: &[u64], v: u16) -> Class
    ensures { result ≡ class_of (frame_at (frames_of words.now) v).kind }
{
    let j = usize::from(v);
    if j < words.len() {
        frame_at(words, j).kind.class()
    } else {
        Class::Neither
    }
}

// The child v, which is to be of the class k, is of another.
fn is_wrong(words: &[u64], k: Class, v: u16) -> bool
    ensures { result ≡ wrong_class (frames_of words.now) (child k v) }
{
    class_at(words, v) != k
}

#[tactic(auto, using(crate::proofs::AnyChild::wrong_laws))]
fn has_wrong_child(words: &[u64], f: Frame) -> bool
    ensures { result ≡ has_wrong_child (frames_of words.now) f }
{
    match children_of(f) {
        Children::Nothing => false,
        Children::One(k, a) => is_wrong(words, k, a),
        Children::Two(k, a, l, b) => is_wrong(words, k, a) || is_wrong(words, l, b),
        Children::Three(k, a, l, b, m, c) => {
            is_wrong(words, k, a) || is_wrong(words, l, b) || is_wrong(words, m, c)
        }
    }
}

// f, which is used `count` times, has a child of a wrong class or is left over.
fn has_class_fault(words: &[u64], f: Frame, count: u8) -> bool
    ensures { result
        ≡ (has_wrong_child (frames_of words.now) f
        || (has_class (class_of f.kind) && eqb count 0)) }
{
    has_wrong_child(words, f) || is_left(f.kind.class(), count)
}

// The lowest frame with a child of a wrong class or left over.
#[tactic(auto, using(crate::proofs::ShapePass::class_fault_laws))]
fn class_fault(lines: Lines) -> Option<u16>
    ensures { result
        ≡ lowest (has_class_fault (frames_of lines.entry.words.now)) 0
        (frames_of lines.entry.words.now) }
{
    let mut counts = [0u8; MOST_LINES];
    count_uses(lines.words, &mut counts);
    // `for`: a `find` was tried, and is slower, by 3.5 instructions for each line.
    for i in 0..lines.words.len() {
        if has_class_fault(lines.words, frame_at(lines.words, i), counts[i]) {
            return Some(i as u16);
        }
    }
    None
}

// The last module, if it has parameters; with no module the last frame.
fn main_fault(lines: Lines) -> Option<u16>
    ensures { result
        ≡ lowest (is_main_fault (frames_of lines.entry.words.now)) 0
        (frames_of lines.entry.words.now) }
{
    for n in (0..lines.words.len()).rev() {
        let f = frame_at(lines.words, n);
        if f.kind.is_module() {
            if f.s == 0 {
                return None;
            }
            return Some(n as u16);
        }
    }
    let last = lines.words.len() - 1;
    Some(last as u16)
}

// The lowest frame with a child of a wrong class, left over, or in the way of `main`.
#[tactic(auto, using(crate::proofs::ShapePass::shape_is))]
pub(crate) fn shape_fault(lines: Lines) -> Option<u16>
    ensures { result ≡ shape_fault_at (frames_of lines.entry.words.now) }
{
    lower(class_fault(lines), main_fault(lines))
}
