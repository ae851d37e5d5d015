//! What the parts of a module are checked against.
ghost use Rattle.std.specs.Prelude.{◌≡◌, ◌<◌, length, slice_index};
ghost use Rattle.text.specs.Frames.{frame_of_word};
ghost use Rattle.checker.specs.Inner.Frames.{FileIn};
ghost use Rattle.checker.specs.Inner.Settings.{LabelsOf};

use language::frame::Frame;
use language::group::Labels;
use text::line::frame_of_word;

/// What is known of a laid-out file and of the modules before one of its modules: it travels
/// through the recursions as one reference. The frames are those of a file that passes refusals 4
/// to 7, and the labels those of its links.
#[derive(Clone, Copy)]
pub(crate) struct Setting<'a> {
    /// The file's frames.
    pub frames: &'a [u64],
    /// The types of its shared cells.
    pub cells: &'a [u16],
    /// The labels of its schedulers.
    pub labels: &'a Labels,
    /// The signatures of the modules before this one, a word each.
    pub below: &'a [u64],
    ghost file: { FileIn frames.now },
    ghost told: { LabelsOf frames.now labels.now },
}

impl Setting<'_> {
    /// Its frame i.
    pub fn frame(&self, i: u16) -> Frame
        requires { i < length self.now.frames.now }
        ensures { result ≡ frame_of_word (slice_index self.now.frames.now i) }
    {
        frame_of_word(self.frames[usize::from(i)])
    }
}
