//! Values, and the answers of an evaluation.

/// A value: a number, a truth, or a cell by its number, from 0.
#[derive(Clone, Copy, Debug, PartialEq, Eq)]
pub enum Value {
    Number(u32),
    Truth(bool),
    Cell(u8),
}

/// What an evaluation answers: a value, or what is refused.
// No `Result<Value, Rule>`: document 01 names the form, "A value enum held inside the evaluator's
// answer enum, beside its foreign, spent and stuck cases".
#[derive(Clone, Copy, Debug, PartialEq, Eq)]
pub enum Outcome {
    Is(Value),
    /// A cell that is neither the acting thread's nor its scheduler's.
    Foreign,
    /// No cell is left.
    Spent,
    /// A wrong kind of value, or something missing.
    Stuck,
}
