//! The lines of a run.
ghost use Rattle.std.specs.Prelude.{◌≡◌};
ghost use Rattle.listing.specs.Listing.{choice_line_of, last_line};

use crate::digits::hex_digits;
use language::limit::{CHOICE_LINE, LAST_LINE};

/// A step's line: its choice, its answer, the thread that acted, the cells in use after it, and how
/// many cells it read, stored in and made.
pub fn choice_line(
    choice: u8,
    answer: u8,
    thread: u8,
    cells: u16,
    accesses: u16,
) -> [u8; CHOICE_LINE]
    ensures { result ≡ choice_line_of choice answer thread cells accesses }
{
    let c = hex_digits::<2>(u64::from(choice));
    let a = hex_digits::<2>(u64::from(answer));
    let t = hex_digits::<2>(u64::from(thread));
    let n = hex_digits::<4>(u64::from(cells));
    let m = hex_digits::<4>(u64::from(accesses));
    [
        c[0], c[1], b' ', a[0], a[1], b' ', t[0], t[1], b' ', n[0], n[1], n[2], n[3], b' ', m[0],
        m[1], m[2], m[3], b'\n',
    ]
}

/// The last line: how many choices were used.
pub fn last_line(used: u16) -> [u8; LAST_LINE]
    ensures { result ≡ last_line used }
{
    let n = hex_digits::<4>(u64::from(used));
    [n[0], n[1], n[2], n[3], b'\n']
}
