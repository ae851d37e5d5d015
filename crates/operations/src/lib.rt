//! What one operation does on the lent words of a state, a word for each cell: a leaf, a cell made,
//! read or stored in, a sum, a comparison, a choice.
#![tactic(auto)]

use language::Place;

mod cell;
pub mod heap;
pub mod operand;
pub mod operation;

/// Who evaluates: the acting thread, from 1; the place on which it stands; how many cells are
/// shared.
#[derive(Clone, Copy, Debug, PartialEq, Eq)]
pub struct Who {
    pub thread: u8,
    pub place: Place,
    pub shared: usize,
}
