//! What a pass counts of the frames that it has passed: their shared cells and modules.
ghost use Rattle.std.specs.Prelude.{◌≡◌, ◌+◌, ◌<◌, ◌++◌, ◌∷◌, [], length};
ghost use Rattle.language.specs.Limits.{most_shared, most_modules};
ghost use Rattle.fields.specs.Fields.{first_content_fine};
ghost use Rattle.fields.specs.Inner.Tallies.{Counted, tallied};

use language::limit::MOST_SHARED;
use language::type_word::{TRUTH, is_cell};
use std::marker::Model;

/// Of the frames passed: the types of the shared cells, in order, and how many are modules.
#[derive(Drop)]
pub(crate) struct Tally {
    types: [u16; MOST_SHARED],
    cells: usize,
    modules: usize,
}

impl Model for Tally {
    ghost use Rattle.std.specs.Prelude.{take, length, ◌≤◌, ◌≡◌};
    ghost use Rattle.language.specs.Limits.{most_shared};
    ghost use Rattle.fields.specs.Inner.Tallies.{Counted, tallied};

    ghost Value = { Counted };

    ghost view = { λ t. tallied (take t.cells t.types) t.modules };

    ghost invariant = { λ t. (t.cells ≤ most_shared) × (length t.types ≡ most_shared) };
}

impl Tally {
    /// Of no frames.
    pub(crate) fn new() -> Tally
        ensures { result ≡ tallied [] 0 }
    {
        Tally {
            types: [0; MOST_SHARED],
            cells: 0,
            modules: 0,
        }
    }

    /// How many shared cells there are.
    pub(crate) fn cells(&self) -> usize
        ensures { result ≡ length self.now.types }
    {
        self.cells
    }

    /// How many modules there are.
    pub(crate) fn modules(&self) -> usize
        ensures { result ≡ self.now.modules }
    {
        self.modules
    }

    /// One shared cell more, of that type.
    pub(crate) fn add_cell(&mut self, type_word: u16)
        requires { length self.old.types < most_shared }
        ensures { self.new
            ≡ tallied (self.old.types ++ type_word ∷ []) self.old.modules }
    {
        self.types[self.cells] = type_word;
        self.cells += 1;
    }

    /// One module more.
    pub(crate) fn add_module(&mut self)
        requires { self.old.modules < most_modules }
        ensures { self.new ≡ tallied self.old.types (self.old.modules + 1) }
    {
        self.modules += 1;
    }

    /// Whether v is a first content of the content type k: for a cell type, the number of an earlier
    /// shared cell of that type.
    #[tactic(auto, using(crate::proofs::FieldLaws::content_laws))]
    pub(crate) fn is_first_content(&self, k: u16, v: u16) -> bool
        ensures { result ≡ first_content_fine self.now.types k v }
    {
        if is_cell(k) {
            let j = usize::from(v);
            j < self.cells && self.types[j] == k
        } else {
            k != TRUTH || v <= 1
        }
    }
}
