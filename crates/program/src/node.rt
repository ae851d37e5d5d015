//! A frame as a node of a tree: its kind with the numbers that the kind uses, children by their
//! frames.
ghost use Rattle.std.specs.Prelude.{◌≡◌, true};
ghost use Rattle.language.specs.Places.{is_place};
ghost use Rattle.language.specs.Kinds.{statement_uses, expression_uses};
ghost use Rattle.language.specs.Inner.Reads.{NamesPlace};
ghost use Rattle.language.specs.declared.kind.Use.{Use};
ghost use Rattle.program.specs.Inner.Nodes.{expression_node, expression_node_of, statement_node};
ghost use Rattle.program.specs.Inner.Nodes.{statement_node_of};

use language::Place;
use language::frame::Frame;
use language::kind::{ExpressionKind, Kind, StatementKind};

/// An expression without operands, K 20 to 23: the number, the truth, the index of a variable or of
/// a shared cell.
#[derive(Clone, Copy, Debug, PartialEq, Eq)]
pub enum Leaf {
    Number(u16),
    Truth(u8),
    Variable(u8),
    SharedCell(u8),
}

/// What becomes of a value, K 24 and 25: the content of a new cell of that owner, or the cell whose
/// content is read.
#[derive(Clone, Copy, Debug, PartialEq, Eq)]
pub enum CellUse {
    Make(Place),
    Read,
}

/// What becomes of two numbers, K 26 and 27.
#[derive(Clone, Copy, Debug, PartialEq, Eq)]
pub enum Operator {
    Sum,
    Less,
}

/// An expression by its operands: none, a value, two numbers, a truth and two numbers. Another frame
/// reads as the number 0.
#[derive(Clone, Copy, Debug, PartialEq, Eq)]
pub enum ExpressionNode {
    Plain(Leaf),
    OfValue(CellUse, u16),
    OfNumbers(Operator, u16, u16),
    Choose(u16, u16, u16),
}

/// A statement, or another frame, which reads as nothing.
#[derive(Clone, Copy, Debug, PartialEq, Eq)]
pub enum StatementNode {
    Nothing,
    Cooperate,
    Seq(u16, u16),
    DoAt(Place, u16),
    Start(u8, u16, u16),
    StartWait(u8, u16, u16),
    LetIn(u16, u16),
    Store(u16, u16),
    IfElse(u16, u16, u16),
    While(u16, u16),
    Generate(u8),
    Await(u8),
}

fn expression_of(k: ExpressionKind, s: u8, a: u16, b: u16, c: u16) -> ExpressionNode
    requires { (expression_uses k).s ≡ Use.Place → is_place s ≡ true }
    ensures { result ≡ expression_node_of k s a b c }
{
    match k {
        ExpressionKind::Number => ExpressionNode::Plain(Leaf::Number(a)),
        ExpressionKind::Truth => ExpressionNode::Plain(Leaf::Truth(s)),
        ExpressionKind::Variable => ExpressionNode::Plain(Leaf::Variable(s)),
        ExpressionKind::SharedCell => ExpressionNode::Plain(Leaf::SharedCell(s)),
        ExpressionKind::NewCell => {
            ExpressionNode::OfValue(CellUse::Make(Place::known(u64::from(s))), a)
        },
        ExpressionKind::Content => ExpressionNode::OfValue(CellUse::Read, a),
        ExpressionKind::Sum => ExpressionNode::OfNumbers(Operator::Sum, a, b),
        ExpressionKind::Less => ExpressionNode::OfNumbers(Operator::Less, a, b),
        ExpressionKind::Choose => ExpressionNode::Choose(a, b, c),
    }
}

/// An expression's frame as a node, of a frame that passes refusal 5: an owner is a place.
pub fn expression_node(f: Frame) -> ExpressionNode
    requires { NamesPlace f }
    ensures { result ≡ expression_node f }
{
    match f.kind {
        Kind::Expression(k) => expression_of(k, f.s, f.a, f.b, f.c),
        _ => ExpressionNode::Plain(Leaf::Number(0)),
    }
}

fn statement_of(k: StatementKind, s: u8, a: u16, b: u16, c: u16) -> StatementNode
    requires { (statement_uses k).s ≡ Use.Place → is_place s ≡ true }
    ensures { result ≡ statement_node_of k s a b c }
{
    match k {
        StatementKind::Nothing => StatementNode::Nothing,
        StatementKind::Then => StatementNode::Seq(a, b),
        StatementKind::DoAt => StatementNode::DoAt(Place::known(u64::from(s)), a),
        StatementKind::Start => StatementNode::Start(s, a, b),
        StatementKind::StartWait => StatementNode::StartWait(s, a, b),
        StatementKind::Cooperate => StatementNode::Cooperate,
        StatementKind::Let => StatementNode::LetIn(a, b),
        StatementKind::Store => StatementNode::Store(a, b),
        StatementKind::If => StatementNode::IfElse(a, b, c),
        StatementKind::While => StatementNode::While(a, b),
        StatementKind::Generate => StatementNode::Generate(s),
        StatementKind::Await => StatementNode::Await(s),
    }
}

/// A statement's frame as a node, of a frame that passes refusal 5: where a body is done is a place.
pub fn statement_node(f: Frame) -> StatementNode
    requires { NamesPlace f }
    ensures { result ≡ statement_node f }
{
    match f.kind {
        Kind::Statement(k) => statement_of(k, f.s, f.a, f.b, f.c),
        _ => StatementNode::Nothing,
    }
}
