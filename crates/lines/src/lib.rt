//! A reader of a text's lines: it holds the caller's text and the number of the next line. As an
//! iterator it gives the frames from its line on, up to the first line that is none.
#![tactic(auto)]

ghost use Rattle.std.specs.Prelude.{◌≡◌};
ghost use Rattle.text.specs.Inner.Lines.{frame_read};
ghost use Rattle.lines.specs.Readers.{line_after, frames_from, opened, frame_here};
ghost use Rattle.lines.specs.Readers.{moved, frames_ahead};

use language::frame::Frame;
use language::limit::LINE_LENGTH;
use text::line::frame_at;

/// A text and the number of its next line, lines counting from 0.
#[derive(Clone, Copy, Debug)]
pub struct LineReader<'a> {
    pub text: &'a [u8],
    pub next: usize,
}

impl<'a> Iterator for LineReader<'a> {
    ghost use Rattle.std.specs.Iterator.{YieldsFirst, item_count};
    ghost use Rattle.lines.specs.Readers.{frames_left};

    type Item = Frame;

    ghost next_gives = { YieldsFirst frames_left };

    ghost remaining = { item_count frames_left };

    /// The frame of the reader's line, and the reader goes to the next line; `None` where the line
    /// is no frame, and the reader stays.
    #[tactic(auto, using(crate::proofs::Counts::left_laws))]
    fn next(&mut self) -> Option<Frame> {
        let frame = frame_at(self.text, self.next)?;
        self.next += 1;
        Some(frame)
    }
}

// The number of the line after line n. After the last whole line there is none, and the number
// stays.
#[tactic(auto, using(crate::proofs::LineNumbers::after_laws))]
fn line_after(text: &[u8], n: usize) -> usize
    ensures { result ≡ line_after text.now n }
{
    if n < text.len() / LINE_LENGTH {
        n + 1
    } else {
        n
    }
}

/// A reader at the first line.
pub fn open<'a>(text: &'a [u8]) -> LineReader<'a>
    ensures { result ≡ opened text.entry }
{
    LineReader { text, next: 0 }
}

/// The frame of the reader's line, if that line is one, and the reader goes to the next line,
/// whether that line is one or not; after the last whole line it stays. `next` of the iterator
/// stays wherever the line is no frame.
pub fn next_frame<'s, 'a>(r: &'s mut LineReader<'a>) -> Option<Frame>
    ensures { (result ≡ frame_here r.old) × (r.new ≡ moved r.old) }
{
    let frame = frame_at(r.text, r.next);
    r.next = line_after(r.text, r.next);
    frame
}

/// How many lines from the reader's on are frames, up to the first that is none.
pub fn frames_ahead<'a>(r: LineReader<'a>) -> usize
    ensures { result ≡ frames_ahead r.entry }
{
    r.count()
}

/// How many lines of a text are frames, up to the first that is none.
pub fn leading_frames(text: &[u8]) -> usize
    ensures { result ≡ frames_from text.now 0 }
{
    frames_ahead(open(text))
}

/// The frame of a text's first line, if that line is one.
pub fn first_frame(text: &[u8]) -> Option<Frame>
    ensures { result ≡ frame_read text.now 0 }
{
    next_frame(&mut open(text))
}
