//! choices.txt: two digits and a line feed for each choice.
ghost use Rattle.std.specs.Prelude.{◌≡◌};
ghost use Rattle.listing.specs.Inner.Choices.{judged, choice_at, right_byte, starts_block};
ghost use Rattle.listing.specs.Inner.Choices.{starts_choice, choices_ahead};

use language::limit::MOST_CHOICE_BYTES;
use language::refusal::{Refusal, Rule};
use text::digit::digit;
use text::line::LINE_FEED;

// Two digits, and then the line feed.
const CHOICE_BYTES: usize = 3;

const FEED_AT: usize = 2;

// So many choices are judged at once.
const BLOCK: usize = 16;

const BLOCK_BYTES: usize = CHOICE_BYTES * BLOCK;

// Whether a byte is right at that position: a digit, or where a line ends a line feed.
#[tactic(auto, using(crate::proofs::ChoiceLaws::byte_laws))]
fn is_right(position: usize, b: u8) -> bool
    ensures { result ≡ right_byte position b }
{
    if position % CHOICE_BYTES == FEED_AT {
        b == LINE_FEED
    } else {
        digit(b) < 16
    }
}

// Whether the bytes begin with a block of choices. The loop has no exit, so that the compiler takes
// 16 bytes at a time.
fn starts_block(bytes: &[u8]) -> bool
    ensures { result ≡ starts_block bytes.now }
{
    if bytes.len() < BLOCK_BYTES {
        return false;
    }
    let mut right = true;
    for (k, b) in bytes[..BLOCK_BYTES].iter().enumerate() {
        right &= is_right(k, *b);
    }
    right
}

// Whether the bytes begin with a choice.
#[tactic(auto, unfolding(crate::specs::Inner::Choices::starts_choice, crate::specs::Listing::is_choice))]
fn starts_choice(bytes: &[u8]) -> bool
    ensures { result ≡ starts_choice bytes.now }
{
    CHOICE_BYTES <= bytes.len()
        && digit(bytes[0]) < 16
        && digit(bytes[1]) < 16
        && bytes[FEED_AT] == LINE_FEED
}

// How many choices the bytes are seen to begin with: a block, one, or none.
fn choices_ahead(bytes: &[u8]) -> usize
    ensures { result ≡ choices_ahead bytes.now }
{
    if starts_block(bytes) {
        BLOCK
    } else if starts_choice(bytes) {
        1
    } else {
        0
    }
}

/// How many choices the bytes are, judged whole before any step. More than the longest list has are
/// refused as a text too long, of the frame 0; else a line that is no choice as malformed, with the
/// first such line, from 0, as its frame.
pub fn judge(bytes: &[u8]) -> Result<usize, Refusal>
    ensures { result ≡ judged bytes.now }
{
    let n = bytes.len();
    if MOST_CHOICE_BYTES < n {
        return Err(Refusal {
            rule: Rule::LongText,
            frame: 0,
        });
    }
    let mut k = 0;
    // A `while`, since no count leads: it goes on by 1 choice or, for speed, by 16.
    while CHOICE_BYTES * k < n {
        let ahead = choices_ahead(&bytes[CHOICE_BYTES * k..]);
        if ahead == 0 {
            return Err(Refusal {
                rule: Rule::MalformedText,
                frame: k as u16,
            });
        }
        k += ahead;
    }
    Ok(k)
}

/// The choice of line k, of bytes that were judged to be choices; 0 after them, and no `None`:
/// a call cannot fail.
pub fn choice_at(bytes: &[u8], k: usize) -> u8
    ensures { result ≡ choice_at bytes.now k }
{
    if bytes.len() / CHOICE_BYTES <= k {
        return 0;
    }
    let a = digit(bytes[CHOICE_BYTES * k]);
    let b = digit(bytes[CHOICE_BYTES * k + 1]);
    ((16 * u16::from(a) + u16::from(b)) % 256) as u8
}
