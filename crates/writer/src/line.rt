//! Lines, made and written.
ghost use Rattle.std.specs.Prelude.{◌≡◌, [], ◌∷◌};
ghost use Rattle.drawing.specs.Drawings.{line_from, head_of};
ghost use Rattle.writer.specs.Inner.Placing.{with_lines, LineRoom};

use language::limit::LINE_LENGTH;
use text::digit::digit_byte;
use text::line::{LINE_DIGITS, LINE_FEED};

// What 1 is worth in the field B, in A, and in the four digits of K and S; C's digits are the last.
const B_UNIT: u64 = 0x0001_0000;

const A_UNIT: u64 = 0x0001_0000_0000;

const HEAD_UNIT: u64 = 0x0001_0000_0000_0000;

// The line w with other fields.
pub(crate) fn new_line(w: u64, a: u16, b: u16, c: u16) -> u64
    ensures { result ≡ line_from (head_of w) a b c }
{
    w / HEAD_UNIT * HEAD_UNIT + u64::from(a) * A_UNIT + u64::from(b) * B_UNIT + u64::from(c)
}

// Writes the line w as line n: the digits from the last to the first, then the line feed.
pub(crate) fn put_line(out: &mut [u8], n: usize, w: u64)
    requires { LineRoom out.old n 1 }
    ensures { out.new ≡ with_lines out.old n (w ∷ []) }
{
    let at = LINE_LENGTH * n;
    let mut rest = w;
    for k in (0..LINE_DIGITS).rev() {
        out[at + k] = digit_byte((rest % 16) as u8);
        rest /= 16;
    }
    out[at + LINE_DIGITS] = LINE_FEED;
}
