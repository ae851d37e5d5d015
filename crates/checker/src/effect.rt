//! Effects and cooperation of statements: the recursion over a frame's children.
ghost use Rattle.std.specs.Prelude.{◌≡◌, map, ◌<◌, ◌≤◌, length, take};
ghost use Rattle.language.specs.Places.{standing_at};
ghost use Rattle.text.specs.Frames.{frames_of};
ghost use Rattle.program.specs.Trees.{expression_at, arguments, statement_at};
ghost use Rattle.layout.specs.Inner.Scope.{Room};
ghost use Rattle.rules.specs.Inner.Checking.{type_in, types_in, is_linked, effect_in};
ghost use Rattle.rules.specs.Inner.Standings.{standing};
ghost use Rattle.rules.specs.Inner.Signatures.{argued_of, signature_of};
ghost use Rattle.checker.specs.Inner.Settings.{setting_in};

use crate::scope::Scope;
use crate::setting::Setting;
use crate::typing::type_of;
use language::Place;
use language::effect::Effect;
use language::refusal::Refusal;
use program::event::event_at;
use program::node::{StatementNode, statement_node};
use rules::finding::{Ending, StatementEffect, Typing};
use rules::start::{Arguments, one_argument, start_rule, two_arguments};
use rules::statement::{
    cooperate_rule, do_rule, if_else_rule, join_rule, seq_rule, signal_rule, store_rule, while_rule,
};

// The expression at frame i, with these variables in scope.
fn type_in(setting: &Setting, scope: &Scope, i: u16) -> Typing
    requires { i < length setting.now.frames.now }
    ensures { result
        ≡ type_in setting.now.cells.now scope.now
        (expression_at (frames_of setting.now.frames.now) i) }
{
    type_of(setting, scope.as_slice(), i)
}

// Whether a thread at that place is linked to a scheduler.
fn is_linked(s: Place) -> bool
    ensures { result ≡ is_linked (standing_at s.number) }
{
    !s.is_private()
}

// The arguments of a start at frame i: a 0 is none.
fn arguments_of(
    setting: &Setting,
    scope: &Scope,
    i: u16,
    a: u16,
    b: u16,
) -> Result<Arguments, Refusal>
    requires { (i < length setting.now.frames.now)
        × ((a ≡ 0 → ⊥) → a < i) × ((a ≡ 0 → ⊥) → (b ≡ 0 → ⊥) → b < i) }
    ensures { argued_of result
        ≡ types_in setting.now.cells.now scope.now
        (arguments (expression_at (frames_of setting.now.frames.now)) a b) }
{
    if a == 0 {
        return Ok(Arguments::Nothing);
    }
    if b == 0 {
        return one_argument(type_in(setting, scope, a));
    }
    two_arguments(type_in(setting, scope, a), type_in(setting, scope, b))
}

/// What the statement at frame i is found to be, where the variables have the types in `scope` and
/// the thread is `linked` where it stands at a scheduler. The frames are laid out, so that a
/// child's number is below its parent's and there is room for every variable.
pub(crate) fn effect_of(
    setting: &Setting,
    scope: &mut Scope,
    linked: bool,
    i: u16,
) -> StatementEffect
    requires { (i < length setting.now.frames.now)
        × Room (frames_of setting.now.frames.now) i (length scope.old) }
    ensures found { result
        ≡ effect_in (setting_in setting.now.frames.now setting.now.cells.now)
        (map signature_of setting.now.below.now) scope.old (standing linked)
        (statement_at (frames_of setting.now.frames.now) i) }
    ensures leaves { scope.new ≡ scope.old }
{
    match statement_node(setting.frame(i)) {
        StatementNode::Nothing => Ok(Ending {
            effect: Effect::none(),
            at_once: true,
        }),
        StatementNode::Cooperate => cooperate_rule(linked, i),
        StatementNode::Seq(a, b) => {
            let x = effect_of(setting, scope, linked, a);
            let y = effect_of(setting, scope, linked, b);
            seq_rule(x, y)
        }
        StatementNode::DoAt(s, a) => {
            let x = effect_of(setting, scope, is_linked(s), a);
            do_rule(setting.labels, linked, s, i, x)
        }
        StatementNode::Start(s, a, b) => {
            let args = arguments_of(setting, scope, i, a, b);
            start_rule(true, setting.below, linked, s, i, args)
        }
        StatementNode::StartWait(s, a, b) => {
            let args = arguments_of(setting, scope, i, a, b);
            start_rule(false, setting.below, linked, s, i, args)
        }
        StatementNode::LetIn(a, b) => {
            let x = type_in(setting, scope, a)?;
            scope.push(x.type_word);
            let y = effect_of(setting, scope, linked, b);
            scope.pop();
            join_rule(x.effect, y)
        }
        StatementNode::Store(a, b) => {
            let x = type_in(setting, scope, a);
            store_rule(i, x, type_in(setting, scope, b))
        }
        StatementNode::IfElse(a, b, c) => {
            let x = type_in(setting, scope, a);
            let y = effect_of(setting, scope, linked, b);
            let z = effect_of(setting, scope, linked, c);
            if_else_rule(i, x, y, z)
        }
        StatementNode::While(a, b) => {
            let x = type_in(setting, scope, a);
            let y = effect_of(setting, scope, linked, b);
            while_rule(i, x, y)
        }
        StatementNode::Generate(s) | StatementNode::Await(s) => {
            signal_rule(event_at(setting.frames, s), i)
        }
    }
}
