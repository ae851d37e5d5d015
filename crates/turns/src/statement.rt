//! A statement's turn, by its kind.
ghost use Rattle.std.specs.Prelude.{◌≡◌, ◌<◌, length};
ghost use Rattle.text.specs.Frames.{frames_of};
ghost use Rattle.program.specs.Trees.{statement_at};
ghost use Rattle.operations.specs.Inner.Lent.{lent_rest, on_lent};
ghost use Rattle.turns.specs.Inner.Acts.{TurnWords};
ghost use Rattle.turns.specs.Inner.Actions.{statement_act, act_in};

use crate::counts::Counts;
use crate::evaluated::{chooses_after, lets_after, loops_after, stores_after};
use crate::moving::{cooperates, does_at};
use crate::start::{Request, starts};
use crate::staying::stays_with_two;
use acts::act::{Action, Change, Transition, comes_to};
use evaluator::evaluation::{evaluate, store};
use language::refusal::Rule;
use machine::offset::State;
use operations::Who;
use program::node::{StatementNode, statement_node};
use text::line::frame_of_word;

/// Statement i, on top of a continuation that no longer has it.
pub(crate) fn act_statement(
    frames: &[u64],
    who: Who,
    counts: Counts,
    state: &mut State,
    i: usize,
) -> Result<Action, Rule>
    requires { TurnWords frames.now who counts state.old × (i < length frames.now) }
    ensures found { act_in result state.new
        ≡ on_lent (statement_act who counts (statement_at (frames_of frames.now) i)) who
        state.old }
    ensures rest { lent_rest state.new ≡ lent_rest state.old }
{
    match statement_node(frame_of_word(frames[i])) {
        StatementNode::Nothing => comes_to(Transition::Stays, Change::Same),
        StatementNode::Seq(a, b) => stays_with_two(counts, u64::from(a), u64::from(b)),
        StatementNode::DoAt(q, a) => does_at(who.place, counts, q, u64::from(a)),
        StatementNode::Start(target, a, b) => {
            let waits = false;
            starts(frames, who, Request { waits, target }, state, a, b)
        },
        StatementNode::StartWait(target, a, b) => {
            let waits = true;
            starts(frames, who, Request { waits, target }, state, a, b)
        },
        StatementNode::Cooperate => cooperates(who.place),
        StatementNode::LetIn(a, b) => {
            let x = evaluate(frames, who, state, a);
            lets_after(x, counts, u64::from(b))
        },
        StatementNode::Store(a, b) => {
            let x = store(frames, who, state, a, b);
            stores_after(x)
        },
        StatementNode::IfElse(a, b, c) => {
            let x = evaluate(frames, who, state, a);
            chooses_after(x, counts, u64::from(b), u64::from(c))
        },
        StatementNode::While(a, b) => {
            let x = evaluate(frames, who, state, a);
            loops_after(x, counts, u64::from(b), i as u64)
        },
        StatementNode::Generate(e) => comes_to(Transition::Generates(e), Change::Same),
        StatementNode::Await(e) => comes_to(Transition::Awaits(e), Change::Same),
    }
}
