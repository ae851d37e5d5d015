//! Whether a frame is below itself.
ghost use Rattle.std.specs.Prelude.{◌≡◌, true, false, ◌<◌, ◌≤◌, length, get_or, set, replicate};
ghost use Rattle.language.specs.Kinds.{children};
ghost use Rattle.language.specs.Limits.{most_lines};
ghost use Rattle.text.specs.Frames.{frames_of};
ghost use Rattle.program.specs.Inner.Children.{over_children};
ghost use Rattle.drawing.specs.Inner.Finds.{is_below};
ghost use Rattle.forest.specs.Inner.Walks.{met, HasRoom, entered, NoCycleBefore};
ghost use Rattle.forest.specs.Inner.Walks.{marks_of};

use language::frame::Frame;
use language::limit::MOST_LINES;
use layout::lines::Lines;
use program::frames::{child_numbers, frame_at};

// A mark is a bit, so that those of all frames take few bytes of the stack.
const WORD_BITS: usize = 64;

const MARK_WORDS: usize = MOST_LINES / WORD_BITS;

#[tactic(auto, using(crate::proofs::MarkBits::bit_tested))]
fn is_marked(marks: &[u64; MARK_WORDS], j: usize) -> bool
    requires { j < most_lines }
    ensures { result ≡ get_or (marks_of marks.now) j false }
{
    (marks[j / WORD_BITS] >> (j % WORD_BITS)) & 1 == 1
}

#[tactic(auto, using(crate::proofs::MarkBits::bit_set))]
fn mark(marks: &mut [u64; MARK_WORDS], j: usize)
    requires { j < most_lines }
    ensures { marks_of marks.new ≡ set (marks_of marks.old) j true }
{
    marks[j / WORD_BITS] |= 1u64 << (j % WORD_BITS);
}

// The frames met on the way down from one: they are marked, and stand in the first `filled` places
// of the queue.
#[derive(Drop)]
pub(crate) struct Met {
    marks: [u64; MARK_WORDS],
    queue: [u16; MOST_LINES],
    filled: usize,
}

impl Met {
    // Nothing is met. It is made once for all ways: `on_cycle` empties it.
    pub(crate) fn new() -> Met
        ensures { result ≡ record { marks = replicate MARK_WORDS 0; queue = replicate MOST_LINES 0; filled = 0 } }
    {
        Met {
            marks: [0; MARK_WORDS],
            queue: [0; MOST_LINES],
            filled: 0,
        }
    }

    // Frame v of n frames is met, on a way from i. A frame enters the queue the first time only, so
    // that there is always room (`HasRoom`); a number before i or after the last frame does not
    // enter.
    fn enter(&mut self, v: u16, i: usize, n: usize)
        requires { (n ≤ most_lines) × HasRoom self.old }
        ensures { met self.new ≡ entered i n (met self.old) v }
    {
        let j = usize::from(v);
        if j < i || n <= j || is_marked(&self.marks, j) {
            return;
        }
        mark(&mut self.marks, j);
        self.queue[self.filled] = v;
        self.filled += 1;
    }

    fn enter_children(&mut self, f: Frame, i: usize, n: usize)
        requires { (n ≤ most_lines) × HasRoom self.old }
        ensures { met self.new ≡ over_children (entered i n) (met self.old) (children f) }
    {
        for v in child_numbers(f) {
            self.enter(v, i, n);
        }
    }
}

// Frame i is on a cycle of children. The frames before i were asked first and are on no cycle, so
// none of them is looked at, and each other frame below i at most once. What was met is lent, with
// anything in it.
pub(crate) fn on_cycle(lines: Lines, i: usize, met: &mut Met) -> bool
    requires { (i < length lines.words.now) × NoCycleBefore (frames_of lines.words.now) i }
    ensures { result ≡ is_below (frames_of lines.entry.words.now) i i }
{
    let n = lines.words.len();
    met.marks = [0; MARK_WORDS];
    met.filled = 0;
    met.enter_children(frame_at(lines.words, i), i, n);
    let mut k: usize = 0;
    // `while`: the queue grows as it is read, so that no range or slice is known before.
    while k < met.filled {
        let j = usize::from(met.queue[k]);
        if j == i {
            return true;
        }
        met.enter_children(frame_at(lines.words, j), i, n);
        k += 1;
    }
    false
}
