//! Digits: the value of a byte, and the byte of a value.
ghost use Rattle.std.specs.Prelude.{◌≡◌, ◌<◌};
ghost use Rattle.text.specs.Digits.{digit, digit_byte};

/// Stands for the value of a byte that is no digit.
pub const NO_DIGIT: u8 = 255;

/// The value of the digit that a byte is, 0 to 15, or `NO_DIGIT`.
// Where the byte stands after `0` and after `A` wraps around below them, so that each range takes
// one test, and the compiler takes 16 bytes at a time where a loop asks for the digits of so many.
// A number and not an `Option`: 255 is the paper's (specs/Digits, `digit`), and `read_line` puts 16
// results together before it tests them.
#[tactic(auto, using(crate::proofs::DigitLaws::digit_laws))]
pub fn digit(b: u8) -> u8
    ensures { result ≡ digit b }
{
    let decimal = b.wrapping_sub(b'0');
    let letter = b.wrapping_sub(b'A');
    if decimal < 10 {
        decimal
    } else if letter < 6 {
        10 + letter
    } else {
        NO_DIGIT
    }
}

/// The byte of a hexadecimal digit of that value, 0 to 15.
#[tactic(auto, using(crate::proofs::DigitLaws::digit_laws))]
pub fn digit_byte(n: u8) -> u8
    requires { n < 16 }
    ensures { result ≡ digit_byte n }
{
    if n < 10 { b'0' + n } else { b'A' + (n - 10) }
}
