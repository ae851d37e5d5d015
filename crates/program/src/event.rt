//! Events by their number.
ghost use Rattle.std.specs.Prelude.{◌≡◌};
ghost use Rattle.text.specs.Frames.{frames_of};
ghost use Rattle.program.specs.Programs.{program_of};
ghost use Rattle.program.specs.Inner.Events.{event_in};

use crate::numbered::{Numbered, frame_numbered};

/// The owner of event e, events counting from 0; `None` where the file has no such event.
pub fn event_at(frames: &[u64], e: u8) -> Option<u8>
    ensures { result ≡ event_in (program_of (frames_of frames.now)) e }
{
    let f = frame_numbered(frames, Numbered::Event, e)?;
    Some(f.s)
}
