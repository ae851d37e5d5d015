//! The lines of a text that was read.
ghost use Rattle.std.specs.Prelude.{◌<◌, ◌≤◌, length};
ghost use Rattle.language.specs.Limits.{most_lines};

/// The lines of a text that was read, as numbers: one at least, and no more than a file may have.
#[derive(Clone, Copy)]
pub struct Lines<'a> {
    /// Each line as a number.
    pub words: &'a [u64],
    ghost some: { 0 < length words.now },
    ghost most: { length words.now ≤ most_lines },
}
