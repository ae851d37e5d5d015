//! Refusal 7: the depth of frames, from the last frame to the first, since parents stand after
//! their children.
ghost use Rattle.std.specs.Prelude.{◌≡◌, length, fold, None};
ghost use Rattle.language.specs.Kinds.{children};
ghost use Rattle.text.specs.Frames.{frames_of};
ghost use Rattle.program.specs.Inner.Children.{child_numbers_of};
ghost use Rattle.layout.specs.Inner.Scans.{order_fault, depth_fault};
ghost use Rattle.layout.specs.Inner.Passes.{given, raised, depths_down};

use crate::lines::Lines;
use language::frame::Frame;
use language::limit::{MOST_DEPTH, MOST_LINES};
use program::frames::{child_numbers, frame_at};

// At v a depth of at least d. A number after the last frame raises nothing.
#[tactic(auto, using(crate::proofs::Raises::raise_laws))]
fn raise(u: &mut [u8; MOST_LINES], d: u8, v: u16)
    ensures { u.new ≡ raised d u.old v }
{
    let j = usize::from(v);
    if j < MOST_LINES && u[j] < d {
        u[j] = d;
    }
}

fn raise_frame(u: &mut [u8; MOST_LINES], d: u8, f: Frame)
    ensures { u.new ≡ fold (raised d) u.old (child_numbers_of (children f)) }
{
    for v in child_numbers(f) {
        raise(u, d, v);
    }
}

// Stands for every depth that is too deep.
const OVER: u8 = MOST_DEPTH + 1;

// The depth of a frame that stands at none: it is below no module. A number below every depth, so
// that `raise` lifts it as any other; an Option would be matched at each child, and is no plainer.
const NOWHERE: u8 = 0;

// The depth of the children of f, which stands at the depth d: 1 for the body of a module.
#[tactic(auto, using(crate::proofs::Raises::given_laws))]
fn given_by(f: Frame, d: u8) -> u8
    ensures { result ≡ given f d }
{
    if d == NOWHERE {
        u8::from(f.kind.is_module())
    } else if d < OVER {
        d + 1
    } else {
        OVER
    }
}

#[tactic(auto, using(crate::proofs::Raises::sinking_laws))]
fn depths_down(lines: Lines, u: &mut [u8; MOST_LINES])
    ensures { u.new
        ≡ depths_down (length lines.entry.words.now)
        (frames_of lines.entry.words.now) u.old }
{
    for n in (0..lines.words.len()).rev() {
        let f = frame_at(lines.words, n);
        let d = given_by(f, u[n]);
        raise_frame(u, d, f);
    }
}

// The lowest frame deeper than 24. Without a fault 6 the children of each frame stand before it;
// only then does one pass see every parent before its children.
pub(crate) fn depth(lines: Lines) -> Option<u16>
    requires { order_fault (frames_of lines.words.now) ≡ None }
    ensures { result ≡ depth_fault (frames_of lines.entry.words.now) }
{
    let mut u = [NOWHERE; MOST_LINES];
    depths_down(lines, &mut u);
    (0..lines.words.len() as u16).find(|i| u[usize::from(*i)] > MOST_DEPTH)
}
