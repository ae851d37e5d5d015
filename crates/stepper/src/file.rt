//! What a step needs to know of a file beside its frames.
ghost use Rattle.std.specs.Prelude.{◌≡◌};
ghost use Rattle.text.specs.Frames.{frames_of};
ghost use Rattle.program.specs.Programs.{allowance_of, program_of};
ghost use Rattle.stepper.specs.Inner.Files.{FileWords, file_of};

use language::group::Schedulers;
use language::limit::DEFAULT_ALLOWANCE;
use program::group::labels_of;
use program::shared::count_shared;
use text::line::frame_of_word;

/// What a step needs to know of a file beside its frames.
#[derive(Clone, Copy, Debug, PartialEq, Eq)]
pub struct File {
    /// How many schedulers it has, and which of them are in step.
    pub schedulers: Schedulers,
    /// How many shared cells it has.
    pub shared: usize,
    /// How many choices a run may use.
    pub allowance: u16,
}

fn allowance_in(a: u16) -> u16
    ensures { result ≡ allowance_of a }
{
    if a == 0 {
        return DEFAULT_ALLOWANCE;
    }
    a
}

/// The header's fields, the count of the shared cells, the labels. The frames are those of a file
/// that passes refusals 1 to 7: its header has 1 to 8 schedulers.
pub fn file_of(frames: &[u64]) -> File
    requires { FileWords frames.now }
    ensures { result ≡ file_of (program_of (frames_of frames.now)) }
{
    let f = frame_of_word(frames[0]);
    File {
        schedulers: Schedulers {
            labels: labels_of(frames),
            count: f.b as u8,
        },
        shared: count_shared(frames),
        allowance: allowance_in(f.a),
    }
}
