//! 13 and 14: a start with its arguments.
ghost use Rattle.std.specs.Prelude.{◌≡◌};
ghost use Rattle.text.specs.Frames.{frames_of};
ghost use Rattle.program.specs.Trees.{arguments, expression_at};
ghost use Rattle.evaluator.specs.Inner.Results.{LentWords, FrameWords};
ghost use Rattle.operations.specs.Inner.Lent.{lent_rest, on_lent};
ghost use Rattle.acts.specs.Inner.Transitions.{arguments_of};
ghost use Rattle.turns.specs.Inner.Actions.{start_with, start_act, act_in};

use crate::evaluated::value_of;
use acts::act::{Action, Arguments, Change, Transition, comes_to};
use evaluator::evaluation::evaluate;
use language::refusal::Rule;
use machine::offset::State;
use machine::word::value_word;
use operations::Who;

/// Which module is started, by its number from 0, and whether the starter waits.
#[derive(Clone, Copy, Debug, PartialEq, Eq)]
pub(crate) struct Request {
    pub waits: bool,
    pub target: u8,
}

/// With so many arguments, of those words.
fn starts_with(q: Request, count: u64, first: u64, second: u64) -> Result<Action, Rule>
    ensures { result ≡ start_with q (arguments_of count first second) }
{
    let args = Arguments {
        count,
        first,
        second,
    };
    comes_to(Transition::Starts(q.waits, q.target, args), Change::Same)
}

/// The arguments are frames a and b, where 0 is none: A, then B.
// 0 is a statement's own word for no argument: `arguments` of specs/Trees, believed, reads it so.
pub(crate) fn starts(
    frames: &[u64],
    who: Who,
    q: Request,
    state: &mut State,
    a: u16,
    b: u16,
) -> Result<Action, Rule>
    requires { FrameWords frames.now a × FrameWords frames.now b
        × LentWords who state.old }
    ensures found { act_in result state.new
        ≡ on_lent (start_act who q (arguments (expression_at (frames_of frames.now)) a b))
        who state.old }
    ensures rest { lent_rest state.new ≡ lent_rest state.old }
{
    if a == 0 {
        return starts_with(q, 0, 0, 0);
    }
    let x = evaluate(frames, who, state, a);
    let v = value_of(x)?;
    let first = value_word(v);
    if b == 0 {
        return starts_with(q, 1, first, 0);
    }
    let y = evaluate(frames, who, state, b);
    let w = value_of(y)?;
    starts_with(q, 2, first, value_word(w))
}
