//! Numbers and truths that are wanted of an evaluation, and what becomes of them: 26 to 28.
ghost use Rattle.std.specs.Prelude.{◌≡◌};
ghost use Rattle.operations.specs.Inner.Results.{only_by};
ghost use Rattle.operations.specs.Inner.ByWords.{operation, first_by, both_by};
ghost use Rattle.operations.specs.Inner.ByWords.{number_or, operand_of};
ghost use Rattle.operations.specs.Inner.ByWords.{outcome_of, chosen, chosen_by};
ghost use Rattle.operations.specs.Inner.ByWords.{operand_stops, outcome_stops, a_truth};

use machine::value::{Outcome, Value};
use program::node::Operator;

/// What a frame comes to where a number is wanted of it. `Other` is a value of another kind: 20,
/// but after all expressions of the frame that wants the number.
// No `Result<Option<u32>, _>`, which is no plainer: five cases of one kind, named as in `Outcome`.
#[derive(Clone, Copy, Debug, PartialEq, Eq)]
pub enum Operand {
    Number(u32),
    Other,
    Foreign,
    Spent,
    Stuck,
}

// 26 or 27 of two numbers
#[tactic(auto, using(crate::proofs::Operands::operation_laws))]
fn operate(op: Operator, m: u32, n: u32) -> Value
    ensures { result ≡ operation op m n }
{
    match op {
        Operator::Sum => Value::Number(std::num::wrapping_add_u32(m, n)),
        Operator::Less => Value::Truth(m < n),
    }
}

// The same where the first is what a number was wanted of.
#[tactic(auto, using(crate::proofs::Operands::first_laws))]
fn operate_first(op: Operator, p: Operand, n: u32) -> Outcome
    ensures { result ≡ first_by op p n }
{
    let Operand::Number(m) = p else {
        return as_answer(p);
    };
    Outcome::Is(operate(op, m, n))
}

/// The same where both are: the second's refusal comes before 20 for a wrong kind of the first.
#[tactic(auto, using(crate::proofs::Operands::both_laws))]
pub fn operated(op: Operator, p: Operand, q: Operand) -> Outcome
    ensures { result ≡ both_by op p q }
{
    let Operand::Number(n) = q else {
        return as_answer(q);
    };
    operate_first(op, p, n)
}

// A value where a number is wanted.
#[tactic(auto, using(crate::proofs::Operands::number_laws))]
fn number_in(v: Value) -> Operand
    ensures { result ≡ number_or v }
{
    let Value::Number(n) = v else {
        return Operand::Other;
    };
    Operand::Number(n)
}

/// An evaluation of which a number is wanted.
pub fn as_number(o: Outcome) -> Operand
    ensures { result ≡ operand_of o }
{
    match o {
        Outcome::Is(v) => number_in(v),
        Outcome::Foreign => Operand::Foreign,
        Outcome::Spent => Operand::Spent,
        Outcome::Stuck => Operand::Stuck,
    }
}

/// The other way, for who wants nothing else any more: a wrong kind is 20.
#[tactic(auto, using(crate::proofs::Operands::outcome_row))]
pub fn as_answer(p: Operand) -> Outcome
    ensures { result ≡ outcome_of p }
{
    match p {
        Operand::Number(n) => Outcome::Is(Value::Number(n)),
        Operand::Other => Outcome::Stuck,
        Operand::Foreign => Outcome::Foreign,
        Operand::Spent => Outcome::Spent,
        Operand::Stuck => Outcome::Stuck,
    }
}

/// Whether it is a refusal, after which nothing more is evaluated.
pub fn number_stops(p: Operand) -> bool
    ensures { result ≡ operand_stops p }
{
    !matches!(p, Operand::Number(_) | Operand::Other)
}

/// The same of an evaluation.
pub fn stops(o: Outcome) -> bool
    ensures { result ≡ outcome_stops o }
{
    !matches!(o, Outcome::Is(_))
}

// Only a truth goes on: 28's condition.
#[tactic(auto, using(crate::proofs::Operands::truth_laws))]
fn a_truth(v: Value) -> Outcome
    ensures { result ≡ a_truth v }
{
    let Value::Truth(t) = v else {
        return Outcome::Stuck;
    };
    Outcome::Is(Value::Truth(t))
}

/// A truth is wanted of an evaluation, whose refusal stands; a value of another kind is 20.
#[tactic(auto, using(crate::proofs::Operands::only_refused))]
pub fn then_truth(o: Outcome) -> Outcome
    ensures { result ≡ only_by o a_truth }
{
    let Outcome::Is(v) = o else {
        return o;
    };
    a_truth(v)
}

// Which of two frames a truth chooses.
#[tactic(auto, using(crate::proofs::Operands::chosen_laws))]
fn branch_of(v: Value, b: u16, c: u16) -> u16
    ensures { result ≡ chosen v b c }
{
    let Value::Truth(t) = v else {
        return c;
    };
    if t { b } else { c }
}

/// Which of two frames an evaluation chooses; a refusal chooses what is then not evaluated.
pub fn branch(o: Outcome, b: u16, c: u16) -> u16
    ensures { result ≡ chosen_by o b c }
{
    match o {
        Outcome::Is(v) => branch_of(v, b, c),
        _ => c,
    }
}
