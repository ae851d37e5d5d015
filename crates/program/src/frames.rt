//! Frames of a text's lines, and the children of a frame.
ghost use Rattle.std.specs.Prelude.{◌≡◌, ◌<◌, length};
ghost use Rattle.language.specs.Kinds.{statement_uses, expression_uses, children};
ghost use Rattle.language.specs.declared.kind.StatementKind.{StatementKind};
ghost use Rattle.text.specs.Frames.{frames_of};
ghost use Rattle.program.specs.Trees.{frame_at};
ghost use Rattle.program.specs.Inner.Children.{children_by, children_of, child_numbers_of};

use language::frame::Frame;
use language::kind::{Class, ExpressionKind, Kind, StatementKind};
use text::line::frame_of_word;

/// A frame's children, from the first to the last: of each, the class that it is to be of and its
/// frame's number.
#[derive(Clone, Copy, Debug, PartialEq, Eq)]
pub enum Children {
    Nothing,
    One(Class, u16),
    Two(Class, u16, Class, u16),
    Three(Class, u16, Class, u16, Class, u16),
}

/// Stands for a child that there is not: a number after every frame's, so that a pass that changes
/// nothing there need not ask how many children a frame has.
// A number and no `Option<u16>`, which is no plainer: each pass asks of a child's number whether
// there is such a frame anyway, and this one fails that test.
pub const NO_CHILD: u16 = 0xFFFF;

/// Frame i of those lines.
pub fn frame_at(words: &[u64], i: usize) -> Frame
    requires { i < length words.now }
    ensures { result ≡ frame_at (frames_of words.now) i }
{
    frame_of_word(words[i])
}

// The arguments of a start: 0 is none.
fn argument_children(f: Frame) -> Children
    ensures { result ≡ children_by (statement_uses StatementKind.Start) f }
{
    match (f.a, f.b) {
        (0, 0) => Children::Nothing,
        (0, b) => Children::One(Class::Expression, b),
        (a, 0) => Children::One(Class::Expression, a),
        (a, b) => Children::Two(Class::Expression, a, Class::Expression, b),
    }
}

fn statement_children(k: StatementKind, f: Frame) -> Children
    ensures { result ≡ children_by (statement_uses k) f }
{
    match k {
        StatementKind::Nothing
        | StatementKind::Cooperate
        | StatementKind::Generate
        | StatementKind::Await => Children::Nothing,
        StatementKind::Then => Children::Two(Class::Statement, f.a, Class::Statement, f.b),
        StatementKind::DoAt => Children::One(Class::Statement, f.a),
        StatementKind::Start | StatementKind::StartWait => argument_children(f),
        StatementKind::Let | StatementKind::While => {
            Children::Two(Class::Expression, f.a, Class::Statement, f.b)
        },
        StatementKind::Store => Children::Two(Class::Expression, f.a, Class::Expression, f.b),
        StatementKind::If => Children::Three(
            Class::Expression,
            f.a,
            Class::Statement,
            f.b,
            Class::Statement,
            f.c,
        ),
    }
}

fn expression_children(k: ExpressionKind, f: Frame) -> Children
    ensures { result ≡ children_by (expression_uses k) f }
{
    match k {
        ExpressionKind::Number
        | ExpressionKind::Truth
        | ExpressionKind::Variable
        | ExpressionKind::SharedCell => Children::Nothing,
        ExpressionKind::NewCell | ExpressionKind::Content => {
            Children::One(Class::Expression, f.a)
        },
        ExpressionKind::Sum | ExpressionKind::Less => {
            Children::Two(Class::Expression, f.a, Class::Expression, f.b)
        },
        ExpressionKind::Choose => Children::Three(
            Class::Expression,
            f.a,
            Class::Expression,
            f.b,
            Class::Expression,
            f.c,
        ),
    }
}

/// The children of a frame.
// By kind, without the table of uses: the passes of refusals 6 and 7 ask each line for them.
pub fn children_of(f: Frame) -> Children
    ensures { result ≡ children_of f }
{
    match f.kind {
        Kind::Module => Children::One(Class::Statement, f.a),
        Kind::Statement(k) => statement_children(k, f),
        Kind::Expression(k) => expression_children(k, f),
        Kind::Header | Kind::Declared(_) | Kind::Unknown => Children::Nothing,
    }
}

/// The numbers of a frame's children, the first one's first; where there are fewer than three, the
/// rest are `NO_CHILD`.
#[tactic(auto, using(crate::proofs::FrameLaws::numbers_are))]
pub fn child_numbers(f: Frame) -> [u16; 3]
    ensures { result ≡ child_numbers_of (children f) }
{
    match children_of(f) {
        Children::Nothing => [NO_CHILD, NO_CHILD, NO_CHILD],
        Children::One(_, a) => [a, NO_CHILD, NO_CHILD],
        Children::Two(_, a, _, b) => [a, b, NO_CHILD],
        Children::Three(_, a, _, b, _, c) => [a, b, c],
    }
}
