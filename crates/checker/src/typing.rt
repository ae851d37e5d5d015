//! The types of expressions: the recursion over a frame's children.
ghost use Rattle.std.specs.Prelude.{◌≡◌, ◌<◌, length};
ghost use Rattle.text.specs.Frames.{frames_of};
ghost use Rattle.program.specs.Trees.{expression_at};
ghost use Rattle.rules.specs.Inner.Checking.{type_in};

use crate::setting::Setting;
use program::node::{ExpressionNode, expression_node};
use rules::expression::{cell_rule, choose_rule, leaf_rule, made_by, numbers_rule};
use rules::finding::Typing;

/// What the expression at frame i is found to be, where the variables have the types `scope`. The
/// frames are laid out, so that a child's number is below its parent's and the recursion ends.
pub(crate) fn type_of(setting: &Setting, scope: &[u16], i: u16) -> Typing
    requires { i < length setting.now.frames.now }
    ensures { result
        ≡ type_in setting.now.cells.now scope.now
        (expression_at (frames_of setting.now.frames.now) i) }
{
    match expression_node(setting.frame(i)) {
        ExpressionNode::Plain(l) => leaf_rule(setting.cells, scope, l, i),
        ExpressionNode::OfValue(u, a) => cell_rule(u, i, type_of(setting, scope, a)),
        ExpressionNode::OfNumbers(op, a, b) => numbers_rule(
            made_by(op),
            i,
            type_of(setting, scope, a),
            type_of(setting, scope, b),
        ),
        ExpressionNode::Choose(a, b, c) => choose_rule(
            i,
            type_of(setting, scope, a),
            type_of(setting, scope, b),
            type_of(setting, scope, c),
        ),
    }
}
