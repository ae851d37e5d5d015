//! The variables in scope at a statement.
ghost use Rattle.std.specs.Prelude.{◌≡◌, ◌<◌, ◌≤◌, ◌-◌, length, take, [], ◌∷◌, ◌++◌};
ghost use Rattle.language.specs.Limits.{most_parameters, most_variables};

use language::limit::MOST_VARIABLES;
use std::marker::Model;

/// The types of the variables in scope, from the first parameter on: a list for whoever calls.
#[derive(Drop)]
pub(crate) struct Scope {
    types: [u16; MOST_VARIABLES],
    count: usize,
}

impl Model for Scope {
    ghost use Rattle.std.specs.Prelude.{List, ℕ, take, ◌≤◌, ◌≡◌, length};
    ghost use Rattle.language.specs.Limits.{most_variables};

    ghost Value = { List ℕ };

    ghost view = { λ t. take t.count t.types };

    ghost invariant = { λ t. (t.count ≤ most_variables) × (length t.types ≡ most_variables) };
}

impl Scope {
    /// The types of a module's parameters: the first `count` of two.
    #[tactic(auto, using(crate::proofs::ModuleLaws::take_two))]
    pub fn of(first: u16, second: u16, count: u8) -> Self
        requires { count ≤ most_parameters }
        ensures { result ≡ take count (first ∷ second ∷ []) }
    {
        let mut types = [0; MOST_VARIABLES];
        types[0] = first;
        types[1] = second;
        Self {
            types,
            count: usize::from(count),
        }
    }

    /// One variable more.
    pub fn push(&mut self, word: u16)
        requires { length self.old < most_variables }
        ensures { self.new ≡ self.old ++ word ∷ [] }
    {
        self.types[self.count] = word;
        self.count += 1;
    }

    /// The last one goes.
    pub fn pop(&mut self)
        requires { 0 < length self.old }
        ensures { self.new ≡ take (length self.old - 1) self.old }
    {
        self.count -= 1;
    }

    /// All of them.
    pub fn as_slice(&self) -> &[u16]
        ensures { result.now ≡ self.now }
    {
        &self.types[..self.count]
    }
}
