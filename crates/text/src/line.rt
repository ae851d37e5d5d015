//! Lines, and the frames that they are.
ghost use Rattle.std.specs.Prelude.{◌≡◌};
ghost use Rattle.text.specs.Frames.{frame_of_word};
ghost use Rattle.text.specs.Inner.Lines.{line_read, frame_of_line, frame_read};

use crate::digit::digit;
use language::frame::Frame;
use language::kind::kind_of;
use language::limit::{LINE_LENGTH, MOST_LINES};

/// A line is so many digits, and then the byte `LINE_FEED`.
pub const LINE_DIGITS: usize = LINE_LENGTH - 1;

/// The byte that ends a line.
pub const LINE_FEED: u8 = b'\n';

// The line with which the bytes begin, as one number of 16 digits; `None` where they begin with no
// line. The loop has no exit, so that it is unrolled: `bits` puts all values together, and is 16 or
// more exactly where one of them is no digit.
pub(crate) fn read_line(bytes: &[u8]) -> Option<u64>
    ensures { result ≡ line_read bytes.now }
{
    if bytes.len() < LINE_LENGTH {
        return None;
    }
    let mut w: u64 = 0;
    let mut bits: u8 = 0;
    for k in 0..LINE_DIGITS {
        let d = digit(bytes[k]);
        bits |= d;
        w = w * 16 + u64::from(d % 16);
    }
    if 16 <= bits || bytes[LINE_DIGITS] != LINE_FEED {
        return None;
    }
    Some(w)
}

/// What K counts by in a line's number: S, A, B and C stand after it, 14 digits.
pub const KIND_UNIT: u64 = 0x0100_0000_0000_0000;

// And S, A and B: 12, 8 and 4 digits stand after them.
const S_UNIT: u64 = 0x0001_0000_0000_0000;

const A_UNIT: u64 = 0x0001_0000_0000;

const B_UNIT: u64 = 0x0001_0000;

// So many values has a field of two digits, and one of four.
const TWO_DIGITS: u64 = 0x0100;

const FOUR_DIGITS: u64 = 0x0001_0000;

/// The frame that a line's number is.
// A function and not `From<u64>`, which is no plainer: not every number is a line, and the name
// says what is read.
#[tactic(auto, unfolding(crate::specs::Frames::frame_of_word))]
pub fn frame_of_word(w: u64) -> Frame
    ensures { result ≡ frame_of_word w }
{
    Frame {
        kind: kind_of((w / KIND_UNIT % TWO_DIGITS) as u8),
        s: (w / S_UNIT % TWO_DIGITS) as u8,
        a: (w / A_UNIT % FOUR_DIGITS) as u16,
        b: (w / B_UNIT % FOUR_DIGITS) as u16,
        c: (w % FOUR_DIGITS) as u16,
    }
}

fn frame_of_line(line: Option<u64>) -> Option<Frame>
    ensures { result ≡ frame_of_line line }
{
    line.map(frame_of_word)
}

/// The frame of that index in a text, if its line is whole.
#[tactic(auto, using(crate::proofs::FrameLaws::frame_laws))]
pub fn frame_at(text: &[u8], i: usize) -> Option<Frame>
    ensures { result ≡ frame_read text.now i }
{
    if MOST_LINES <= i || text.len() < i * LINE_LENGTH {
        return None;
    }
    frame_of_line(read_line(&text[i * LINE_LENGTH..]))
}
