//! The shared cells of a file: the frames that declare them, one after the other, their count and
//! their types.
ghost use Rattle.std.specs.Prelude.{◌≡◌, true, length, drop};
ghost use Rattle.language.specs.Places.{is_place};
ghost use Rattle.language.specs.Types.{cell_type, room_around};
ghost use Rattle.text.specs.Frames.{frames_of};
ghost use Rattle.program.specs.Programs.{shared_of};
ghost use Rattle.program.specs.Inner.Shared.{next_shared, SharedFirst, shared_types};

use crate::frames::frame_at;
use crate::group::line_declares;
use language::Place;
use language::frame::Frame;
use language::kind::DeclarationKind;
use language::limit::MOST_SHARED;
use language::type_word::cell_type;

/// The types of the shared cells, in order: how many there are, and the first so many of the array.
// A count beside an array: as a type that clauses see as a list (`impl Model`), which was tried and
// proved, it could not be copied by whoever is given it, as this one can.
#[derive(Clone, Copy, Debug, PartialEq, Eq)]
pub struct SharedTypes {
    pub count: usize,
    pub types: [u16; MOST_SHARED],
}

/// The first frame from i on that declares a shared cell; the number of frames where none does, or i
/// where that is after the last frame.
pub fn next_shared(frames: &[u64], i: usize) -> usize
    ensures { result ≡ next_shared i (drop i (frames_of frames.now)) }
{
    (i..frames.len())
        .find(|k| line_declares(DeclarationKind::Shared, frames[*k]))
        .unwrap_or(i.max(frames.len()))
}

/// How many shared cells those frames declare.
pub fn count_shared(frames: &[u64]) -> usize
    ensures { result ≡ length (shared_of (frames_of frames.now)) }
{
    let mut n = 0;
    for line in frames {
        if line_declares(DeclarationKind::Shared, *line) {
            n += 1;
        }
    }
    n
}

/// The type of a shared cell whose owner and content type are right: so there is one.
pub fn shared_type(f: Frame) -> u16
    requires { (is_place f.s ≡ true) × (room_around f.a ≡ true) }
    ensures { result ≡ cell_type f.s f.a }
{
    cell_type(Place::known(u64::from(f.s)), f.a).unwrap_or(0)
}

/// The types of all shared cells of a laid-out file. The cells stand right after the header, so
/// that the scan ends at the first other frame: a check looks at no line more than that.
pub fn shared_types(frames: &[u64]) -> SharedTypes
    requires { SharedFirst (frames_of frames.now) }
    ensures { result ≡ shared_types (frames_of frames.now) }
{
    let mut types = [0u16; MOST_SHARED];
    let mut count = 0;
    for k in 1..frames.len() {
        let f = frame_at(frames, k);
        if !f.kind.declares(DeclarationKind::Shared) {
            return SharedTypes { count, types };
        }
        types[count] = shared_type(f);
        count += 1;
    }
    SharedTypes { count, types }
}
