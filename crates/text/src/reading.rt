//! Whether a text is such lines: refusals 1 to 3; and its lines as numbers, which the passes over a
//! file work on.
ghost use Rattle.std.specs.Prelude.{◌≡◌, replicate};
ghost use Rattle.language.specs.Limits.{most_lines};
ghost use Rattle.text.specs.Inner.Reading.{read_as, text_words};

use crate::line::read_line;
use language::limit::{LINE_LENGTH, MOST_BYTES};
use language::refusal::{Refusal, Rule};

/// What any bytes read as: how many frames, or the refusal, 1 to 3. Their lines go to the first of
/// the lent words, each as one number of 16 digits; the words are all 0 before, so that 0 stands
/// after the lines.
pub fn read_into(text: &[u8], words: &mut [u64]) -> Result<u16, Refusal>
    requires { words.old ≡ replicate most_lines 0 }
    ensures { read_as result words.new ≡ text_words text.now }
{
    let n = text.len();
    if n == 0 {
        return Err(Refusal {
            rule: Rule::EmptyText,
            frame: 0,
        });
    }
    if MOST_BYTES < n {
        return Err(Refusal {
            rule: Rule::LongText,
            frame: 0,
        });
    }
    let lines = n.div_ceil(LINE_LENGTH);
    for i in 0..lines {
        let at = i * LINE_LENGTH;
        let Some(w) = read_line(&text[at..]) else {
            return Err(Refusal {
                rule: Rule::MalformedText,
                frame: i as u16,
            });
        };
        words[i] = w;
    }
    Ok(lines as u16)
}
