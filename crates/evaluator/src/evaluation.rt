//! Evaluation: numbers and truths call each other, and the frame number falls at each call.
// The cycle of three stays: document 01 names it, and a cycle through a trait's method gets no
// proof. `frames`, `who` and `state` are no struct: one that holds the state to write in would owe
// each function a clause on what it leaves there.
ghost use Rattle.std.specs.Prelude.{◌≡◌};
ghost use Rattle.text.specs.Frames.{frames_of};
ghost use Rattle.program.specs.Trees.{frame_at, expression_at};
ghost use Rattle.program.specs.Inner.Nodes.{expression_node};
ghost use Rattle.operations.specs.Inner.Lent.{Lent, lent_variables, lent_rest, on_lent};
ghost use Rattle.operations.specs.Inner.Results.{result_in};
ghost use Rattle.operations.specs.Inner.ByWords.{leaf_in};
ghost use Rattle.evaluator.specs.Inner.Results.{evaluated_on, stored_on};
ghost use Rattle.evaluator.specs.Inner.Results.{LentWords, FrameWords};
ghost use Rattle.evaluator.specs.Inner.ByWords.{eval_in, wanted_in, number_in, truth_in};

use machine::offset::{State, THREAD_LENGTH, THREADS_AT, VARIABLES_FIELD};
use machine::value::Outcome;
use operations::Who;
use operations::operand::{
    Operand, as_answer, as_number, branch, number_stops, operated, stops, then_truth,
};
use operations::operation::{leaf, then_store, then_use};
use program::node::{ExpressionNode, Leaf, expression_node};
use text::line::frame_of_word;

// The node that frame i is. There is such a frame: the recursion goes from frames of the file to
// their children.
fn node_at(frames: &[u64], i: u16) -> ExpressionNode
    requires { FrameWords frames.now i }
    ensures { result ≡ expression_node (frame_at (frames_of frames.now) i) }
{
    expression_node(frame_of_word(frames[usize::from(i)]))
}

// A leaf, with the acting thread's variables where they lie.
fn leaf_at(who: Who, state: &State, l: Leaf) -> Outcome
    requires { Lent who state.now }
    ensures { result ≡ leaf_in who (lent_variables who state.now) l }
{
    let at = THREADS_AT + THREAD_LENGTH * (usize::from(who.thread) - 1) + VARIABLES_FIELD;
    let count = state[at] as usize;
    leaf(who, &state[at + 1..at + 1 + count], l)
}

// The value of frame i, of any kind.
#[cycle(number_at_truth_at_value_at)]
fn value_at(frames: &[u64], who: Who, state: &mut State, i: u16) -> Outcome
    requires { FrameWords frames.now i × Lent who state.old }
    ensures found { result_in result state.new
        ≡ on_lent (eval_in who (expression_at (frames_of frames.now) i)) who
        state.old }
    ensures rest { lent_rest state.new ≡ lent_rest state.old }
{
    match node_at(frames, i) {
        ExpressionNode::Plain(l) => leaf_at(who, state, l),
        ExpressionNode::OfValue(u, a) => {
            let x = value_at(frames, who, state, a);
            then_use(u, who, x, state)
        },
        ExpressionNode::OfNumbers(op, a, b) => {
            let p = number_at(frames, who, state, a);
            if number_stops(p) {
                return as_answer(p);
            }
            let q = number_at(frames, who, state, b);
            operated(op, p, q)
        },
        ExpressionNode::Choose(a, b, c) => {
            let x = truth_at(frames, who, state, a);
            if stops(x) {
                return x;
            }
            let p = number_at(frames, who, state, branch(x, b, c));
            as_answer(p)
        },
    }
}

// The number of frame i. A wrong kind is not refused here: it waits until the frame that wants the
// number has evaluated all that it evaluates.
#[cycle(number_at_truth_at_value_at)]
fn number_at(frames: &[u64], who: Who, state: &mut State, i: u16) -> Operand
    requires { FrameWords frames.now i × Lent who state.old }
    ensures found { wanted_in result state.new
        ≡ on_lent (number_in who (expression_at (frames_of frames.now) i)) who
        state.old }
    ensures rest { lent_rest state.new ≡ lent_rest state.old }
{
    match node_at(frames, i) {
        ExpressionNode::Plain(l) => as_number(leaf_at(who, state, l)),
        ExpressionNode::OfValue(u, a) => {
            let x = value_at(frames, who, state, a);
            as_number(then_use(u, who, x, state))
        },
        ExpressionNode::OfNumbers(op, a, b) => {
            let p = number_at(frames, who, state, a);
            if number_stops(p) {
                return p;
            }
            let q = number_at(frames, who, state, b);
            as_number(operated(op, p, q))
        },
        ExpressionNode::Choose(a, b, c) => {
            let x = truth_at(frames, who, state, a);
            if stops(x) {
                return as_number(x);
            }
            let p = number_at(frames, who, state, branch(x, b, c));
            as_number(as_answer(p))
        },
    }
}

// The truth of frame i. A wrong kind is refused here: 28's condition is tested before its branch.
#[cycle(number_at_truth_at_value_at)]
fn truth_at(frames: &[u64], who: Who, state: &mut State, i: u16) -> Outcome
    requires { FrameWords frames.now i × Lent who state.old }
    ensures found { result_in result state.new
        ≡ on_lent (truth_in who (expression_at (frames_of frames.now) i)) who
        state.old }
    ensures rest { lent_rest state.new ≡ lent_rest state.old }
{
    match node_at(frames, i) {
        ExpressionNode::Plain(l) => then_truth(leaf_at(who, state, l)),
        ExpressionNode::OfValue(u, a) => {
            let x = value_at(frames, who, state, a);
            then_truth(then_use(u, who, x, state))
        },
        ExpressionNode::OfNumbers(op, a, b) => {
            let p = number_at(frames, who, state, a);
            if number_stops(p) {
                return as_answer(p);
            }
            let q = number_at(frames, who, state, b);
            then_truth(operated(op, p, q))
        },
        ExpressionNode::Choose(a, b, c) => {
            let x = truth_at(frames, who, state, a);
            if stops(x) {
                return x;
            }
            let p = number_at(frames, who, state, branch(x, b, c));
            then_truth(as_answer(p))
        },
    }
}

/// The value of frame i of a file, on the state that the words are: the acting thread's variables
/// are read where they lie, and nothing but the cells and their count is written. Each `requires`
/// is what refusals 3, 5, 6 and 14 leave: the words of cells and of values are in range, the
/// thread's variables fit their space, children stand before their parents, an owner is a place,
/// and frame i is there.
pub fn evaluate(frames: &[u64], who: Who, state: &mut State, i: u16) -> Outcome
    requires { FrameWords frames.now i × LentWords who state.old }
    ensures found { result_in result state.new
        ≡ on_lent (evaluated_on who (expression_at (frames_of frames.now) i)) who
        state.old }
    ensures rest { lent_rest state.new ≡ lent_rest state.old }
{
    value_at(frames, who, state, i)
}

/// 17: the value of frame b stored in the cell that frame a gives. It asks the same of its words,
/// and that both frames are there.
pub fn store(frames: &[u64], who: Who, state: &mut State, a: u16, b: u16) -> Outcome
    requires { FrameWords frames.now a × FrameWords frames.now b
        × LentWords who state.old }
    ensures found { result_in result state.new
        ≡ on_lent (stored_on who (expression_at (frames_of frames.now) a)
        (expression_at (frames_of frames.now) b)) who state.old }
    ensures rest { lent_rest state.new ≡ lent_rest state.old }
{
    let x = value_at(frames, who, state, a);
    match x {
        Outcome::Is(v) => {
            let y = value_at(frames, who, state, b);
            then_store(who, v, y, state)
        },
        Outcome::Foreign => x,
        Outcome::Spent => x,
        Outcome::Stuck => x,
    }
}
