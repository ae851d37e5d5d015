//! What the programs print, and choices.txt, which `run` reads.
#![tactic(auto)]

pub mod buffer;
pub mod choices;
pub mod digits;
pub mod line;
pub mod numbered;

ghost use Rattle.std.specs.Prelude.{◌≡◌};
ghost use Rattle.listing.specs.Listing.{refusal_line, verdict_line};

use crate::digits::hex_digits;
use crate::numbered::Numbered;
use language::limit::CHECK_LINE;

/// The line of a number and a frame, in two and in four digits. A number and no rule, since what is
/// accepted has 0, which is the number of none.
pub fn refusal_line(number: u8, frame: u16) -> [u8; CHECK_LINE]
    ensures { result ≡ refusal_line number frame }
{
    let a = hex_digits::<2>(u64::from(number));
    let b = hex_digits::<4>(u64::from(frame));
    [a[0], a[1], b' ', b[0], b[1], b[2], b[3], b'\n']
}

/// What `check` prints of a text with that verdict: the number and the frame with which it refuses,
/// or `00 0000`.
pub fn check_line<R: Numbered>(verdict: Result<(), R>) -> [u8; CHECK_LINE]
    ensures { result ≡ verdict_line R.number R.frame verdict }
{
    match verdict {
        Ok(()) => refusal_line(0, 0),
        Err(refusal) => refusal_line(refusal.number(), refusal.frame()),
    }
}
