//! Numbers in hexadecimal digits.
ghost use Rattle.std.specs.Prelude.{◌≡◌};
ghost use Rattle.listing.specs.Listing.{hex_digits};

use text::digit::digit_byte;

/// The last N hexadecimal digits of a number.
pub fn hex_digits<const N: usize>(n: u64) -> [u8; N]
    ensures { result ≡ hex_digits N n }
{
    let mut digits = [b'0'; N];
    let mut rest = n;
    for k in (0..N).rev() {
        digits[k] = digit_byte((rest % 16) as u8);
        rest /= 16;
    }
    digits
}
