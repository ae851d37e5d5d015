//! How often each frame is used as a child.
ghost use Rattle.std.specs.Prelude.{◌≡◌, fold, replicate};
ghost use Rattle.language.specs.Kinds.{children};
ghost use Rattle.language.specs.Limits.{most_lines};
ghost use Rattle.text.specs.Frames.{frames_of};
ghost use Rattle.program.specs.Inner.Children.{child_numbers_of};
ghost use Rattle.layout.specs.Inner.Uses.{counted, CountsUses};

use language::frame::Frame;
use language::limit::MOST_LINES;
use program::frames::{child_numbers, frame_at};

/// Stands for every count from 2 on.
pub const TWICE: u8 = 2;

// One more use of v. A number after the last frame counts for nothing.
#[tactic(auto, using(crate::proofs::UseCounts::count_laws))]
fn count(counts: &mut [u8; MOST_LINES], v: u16)
    ensures { counts.new ≡ counted counts.old v }
{
    let j = usize::from(v);
    if j < MOST_LINES && counts[j] < TWICE {
        counts[j] += 1;
    }
}

fn count_frame(counts: &mut [u8; MOST_LINES], f: Frame)
    ensures { counts.new ≡ fold counted counts.old (child_numbers_of (children f)) }
{
    for v in child_numbers(f) {
        count(counts, v);
    }
}

/// For each frame how often others have it as a child, `TWICE` standing for more. The caller lends
/// the zeros, so that the array is not copied.
#[tactic(auto, using(crate::proofs::UseCounts::counting_laws))]
pub fn count_uses(words: &[u64], counts: &mut [u8; MOST_LINES])
    requires { counts.old ≡ replicate most_lines 0 }
    ensures { CountsUses (frames_of words.now) counts.new }
{
    for i in 0..words.len() {
        count_frame(counts, frame_at(words, i));
    }
}
