//! What a file counts from 0: the frame of an event or of a module by its number.
ghost use Rattle.std.specs.Prelude.{◌≡◌};
ghost use Rattle.text.specs.Frames.{frame_of_word, frames_of};
ghost use Rattle.program.specs.Inner.Numbered.{is_numbered, numbered_in};

use crate::group::line_declares;
use language::frame::Frame;
use language::kind::DeclarationKind;
use text::line::frame_of_word;

// An enum and not a closure that tests a line: what `frame_numbered` ensures would then be said
// over any test, no plainer than of these two.
#[derive(Clone, Copy, Debug, PartialEq, Eq)]
pub(crate) enum Numbered {
    Event,
    Module,
}

// An event is told by its line's K alone: a generation and an await ask every line up to it.
fn is_numbered(what: Numbered, line: u64) -> bool
    ensures { result ≡ is_numbered what (frame_of_word line).kind }
{
    match what {
        Numbered::Event => line_declares(DeclarationKind::Event, line),
        Numbered::Module => frame_of_word(line).kind.is_module(),
    }
}

// The frame of event n or of module n; `None` where there are not so many. Events stand before the
// modules, so that an event that is there is found among the first frames.
pub(crate) fn frame_numbered(frames: &[u64], what: Numbered, n: u8) -> Option<Frame>
    ensures { result ≡ numbered_in what (frames_of frames.now) n }
{
    let mut left = n;
    for line in frames {
        if is_numbered(what, *line) {
            if left == 0 {
                return Some(frame_of_word(*line));
            }
            left -= 1;
        }
    }
    None
}
