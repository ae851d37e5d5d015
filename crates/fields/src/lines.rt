//! The lines of a file whose header is right.
ghost use Rattle.std.specs.Prelude.{◌≡◌};
ghost use Rattle.text.specs.Frames.{frames_of};
ghost use Rattle.fields.specs.Fields.{schedulers_of};

// The lines of a file whose header is right, and how many schedulers it has, 1 to 8.
#[derive(Clone, Copy)]
pub(crate) struct Lines<'a> {
    pub(crate) words: &'a [u64],
    pub(crate) schedulers: u8,
    ghost counted: { schedulers ≡ schedulers_of (frames_of words.now) },
}
