//! Refusal 6: the order of frames.
ghost use Rattle.std.specs.Prelude.{◌≡◌, ◌&&◌, [], ◌∷◌, reverse, ℕ, ◌≤◌, max, eqb, length};
ghost use Rattle.basics.specs.Inner.Searches.{lowest};
ghost use Rattle.language.specs.Kinds.{file_rank, child, children};
ghost use Rattle.language.specs.declared.frame.Frame.{Frame};
ghost use Rattle.language.specs.Limits.{most_lines};
ghost use Rattle.text.specs.Frames.{frames_of};
ghost use Rattle.layout.specs.Order.{has_class, is_main};
ghost use Rattle.layout.specs.Inner.Scans.{row_first, first_disorder, is_late, is_misplaced};
ghost use Rattle.layout.specs.Inner.Scans.{first_leftover, no_main, order_fault};
ghost use Rattle.layout.specs.Inner.Passes.{told, Backward};

use crate::lines::Lines;
use crate::uses::count_uses;
use fields::fault_search::lower;
use language::frame::Frame;
use language::kind::{Class, Kind};
use language::limit::MOST_LINES;
use program::frames::{Children, children_of, frame_at};

// The trees of the frames before frame `count`: `first` says where the tree of each begins. None
// begins after its root.
#[derive(Clone, Copy)]
struct Trees<'a> {
    words: &'a [u64],
    first: &'a [u16; MOST_LINES],
    count: usize,
    ghost inside: { count ≤ length words.now },
    ghost most: { length words.now ≤ most_lines },
    ghost backward: { Backward first.now count },
}

impl Trees<'_> {
    // Where the tree of the child v begins, which is to be of that class and to end just before
    // `stop`; `None` where it is out of order or of another class. A row ends at `count` or before,
    // so that a number from there on is out of order.
    #[tactic(auto, using(crate::proofs::DisorderPass::child_laws))]
    fn child_first(&self, class: Class, v: u16, stop: u16) -> Option<u16>
        requires { stop ≤ self.now.count }
        ensures { result
            ≡ row_first (told (frames_of self.now.words.now) self.now.first.now self.now.count)
            self.now.count stop (child class v ∷ []) }
    {
        let j = usize::from(v);
        if self.count <= j || v + 1 != stop {
            return None;
        }
        let f = frame_at(self.words, j);
        if f.kind.class() != class {
            return None;
        }
        Some(self.first[j])
    }

    // The same for the two children a and b, side by side, of the classes k and l.
    fn pair_first(&self, k: Class, a: u16, l: Class, b: u16, stop: u16) -> Option<u16>
        requires { stop ≤ self.now.count }
        ensures { result
            ≡ row_first (told (frames_of self.now.words.now) self.now.first.now self.now.count)
            self.now.count stop (child l b ∷ child k a ∷ []) }
    {
        let middle = self.child_first(l, b, stop)?;
        self.child_first(k, a, middle)
    }

    // Where the tree of the next frame, f, begins, from its last child to its first.
    fn row_first(&self, f: Frame) -> Option<u16>
        ensures { result
            ≡ row_first (told (frames_of self.now.words.now) self.now.first.now self.now.count)
            self.now.count self.now.count (reverse (children f)) }
    {
        let stop = self.count as u16;
        match children_of(f) {
            Children::Nothing => Some(stop),
            Children::One(k, a) => self.child_first(k, a, stop),
            Children::Two(k, a, l, b) => self.pair_first(k, a, l, b, stop),
            Children::Three(k, a, l, b, m, c) => {
                let middle = self.child_first(m, c, stop)?;
                self.pair_first(k, a, l, b, middle)
            }
        }
    }
}

// The lowest frame whose children are out of order or of a wrong class.
fn disorder(lines: Lines) -> Option<u16>
    ensures { result ≡ first_disorder [] 0 (frames_of lines.entry.words.now) }
{
    let mut first = [0u16; MOST_LINES];
    for i in 0..lines.words.len() {
        let trees = Trees {
            words: lines.words,
            first: &first,
            count: i,
        };
        let Some(start) = trees.row_first(frame_at(lines.words, i)) else {
            return Some(i as u16);
        };
        first[i] = start;
    }
    None
}

// The ranks of the header and of all that comes after the declarations, whose own are 1 to 3. They
// stay numbers: `DeclarationKind::rank` is public and gives one.
const FIRST_RANK: u8 = 0;

const LAST_RANK: u8 = 4;

// In which order the kinds stand in a file.
fn file_rank(k: Kind) -> u8
    ensures { result ≡ file_rank k }
{
    match k {
        Kind::Header => FIRST_RANK,
        Kind::Declared(d) => d.rank(),
        _ => LAST_RANK,
    }
}

// A declaration, where a frame of a later rank was before: `top` is the highest.
#[tactic(auto, unfolding(crate::specs::Inner::Scans::is_late))]
fn is_late(k: Kind, top: u8) -> bool
    ensures { result ≡ is_late k top }
{
    matches!(k, Kind::Declared(d) if d.rank() < top)
}

// The lowest declaration after a frame that it should precede.
fn misplaced(lines: Lines) -> Option<u16>
    ensures { result
        ≡ lowest (λ (i : ℕ) (f : Frame). is_misplaced (frames_of lines.entry.words.now) i f) 0
        (frames_of lines.entry.words.now) }
{
    let mut top = FIRST_RANK;
    for i in 0..lines.words.len() {
        let kind = frame_at(lines.words, i).kind;
        if is_late(kind, top) {
            return Some(i as u16);
        }
        top = top.max(file_rank(kind));
    }
    None
}

/// Whether a frame of that class is left over, a statement or an expression that no frame has as a
/// child: `count` says how often one has, from 0.
pub fn is_left(k: Class, count: u8) -> bool
    ensures { result ≡ (has_class k && eqb count 0) }
{
    k != Class::Neither && count == 0
}

// The lowest statement or expression that no frame has as a child.
fn leftover(lines: Lines) -> Option<u16>
    ensures { result
        ≡ first_leftover (frames_of lines.entry.words.now) 0 (frames_of lines.entry.words.now) }
{
    let mut counts = [0u8; MOST_LINES];
    count_uses(lines.words, &mut counts);
    (0..lines.words.len() as u16).find(|i| {
        let n = usize::from(*i);
        is_left(frame_at(lines.words, n).kind.class(), counts[n])
    })
}

#[tactic(auto, unfolding(crate::specs::Order::is_main))]
fn is_main(f: Frame) -> bool
    ensures { result ≡ is_main f }
{
    f.kind.is_module() && f.s == 0
}

// The last frame, if it is not `main`.
fn no_main(lines: Lines) -> Option<u16>
    ensures { result ≡ no_main (frames_of lines.entry.words.now) }
{
    let last = lines.words.len() - 1;
    if is_main(frame_at(lines.words, last)) {
        None
    } else {
        Some(last as u16)
    }
}

// The lowest frame with a fault 6.
#[tactic(auto, using(crate::proofs::OrderPass::order_is))]
pub(crate) fn order(lines: Lines) -> Option<u16>
    ensures { result ≡ order_fault (frames_of lines.entry.words.now) }
{
    let d = disorder(lines);
    let p = misplaced(lines);
    let l = leftover(lines);
    let m = no_main(lines);
    lower(d, lower(p, lower(l, m)))
}
