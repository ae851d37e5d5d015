//! Modules by their number, and main, the last.
ghost use Rattle.std.specs.Prelude.{◌≡◌};
ghost use Rattle.text.specs.Frames.{frames_of};
ghost use Rattle.program.specs.Trees.{root_s};
ghost use Rattle.program.specs.Programs.{program_of, main_of};
ghost use Rattle.program.specs.Inner.Modules.{found_in, parameters_in};

use crate::numbered::{Numbered, frame_numbered};
use language::limit::MOST_PARAMETERS;
use text::line::frame_of_word;

/// A module of a file: how many parameters it has, 0 to 2, and its body's frame.
#[derive(Clone, Copy, Debug, PartialEq, Eq)]
pub struct Module {
    pub parameters: u64,
    pub body: u64,
}

// Two types are named at most.
fn parameters_of(s: u8) -> u64
    ensures { result ≡ parameters_in s }
{
    u64::from(s.min(MOST_PARAMETERS))
}

/// Module m, modules counting from 0; `None` where the file has no such module.
pub fn module_at(frames: &[u64], m: u8) -> Option<Module>
    ensures { result ≡ found_in (program_of (frames_of frames.now)) m }
{
    let f = frame_numbered(frames, Numbered::Module, m)?;
    Some(Module {
        parameters: parameters_of(f.s),
        body: u64::from(f.a),
    })
}

/// The body's frame of the last module, which is main; 0 where a file has no module.
// A number and not an `Option`: the definition in its contract, the root of main's body, is total,
// and the word where a run begins is that number (a state's first item, in the C layout).
pub fn main_body(frames: &[u64]) -> u64
    ensures { result ≡ root_s (main_of (program_of (frames_of frames.now))).body }
{
    for k in (0..frames.len()).rev() {
        let f = frame_of_word(frames[k]);
        if f.kind.is_module() {
            return u64::from(f.a);
        }
    }
    0
}
