//! Which of a line's fields A, B and C hold a child.
ghost use Rattle.std.specs.Prelude.{◌≡◌};
ghost use Rattle.language.specs.Kinds.{statement_uses, expression_uses, uses};
ghost use Rattle.writer.specs.Inner.Fields.{holding, child_fields, names_child};

use language::kind::{ExpressionKind, Kind, StatementKind};

#[derive(Clone, Copy, Debug, PartialEq, Eq)]
pub(crate) enum Holds {
    // A number that means itself.
    Kept,
    Child,
    // A child, or 0 for none.
    Argument,
}

#[derive(Clone, Copy, Debug, PartialEq, Eq)]
pub(crate) struct ChildFields {
    pub a: Holds,
    pub b: Holds,
    pub c: Holds,
}

// The fields of a kind with no child; with one, two or three, in A, in A and B, in all; and of a
// start.
const NONE: ChildFields = ChildFields {
    a: Holds::Kept,
    b: Holds::Kept,
    c: Holds::Kept,
};

const A: ChildFields = ChildFields {
    a: Holds::Child,
    b: Holds::Kept,
    c: Holds::Kept,
};

const A_B: ChildFields = ChildFields {
    a: Holds::Child,
    b: Holds::Child,
    c: Holds::Kept,
};

const A_B_C: ChildFields = ChildFields {
    a: Holds::Child,
    b: Holds::Child,
    c: Holds::Child,
};

const ARGUMENTS: ChildFields = ChildFields {
    a: Holds::Argument,
    b: Holds::Argument,
    c: Holds::Kept,
};

fn statement_fields(k: StatementKind) -> ChildFields
    ensures { result ≡ child_fields (statement_uses k) }
{
    match k {
        StatementKind::If => A_B_C,
        StatementKind::Then | StatementKind::Let | StatementKind::Store | StatementKind::While =>
            A_B,
        StatementKind::DoAt => A,
        StatementKind::Start | StatementKind::StartWait => ARGUMENTS,
        _ => NONE,
    }
}

fn expression_fields(k: ExpressionKind) -> ChildFields
    ensures { result ≡ child_fields (expression_uses k) }
{
    match k {
        ExpressionKind::Choose => A_B_C,
        ExpressionKind::Sum | ExpressionKind::Less => A_B,
        ExpressionKind::NewCell | ExpressionKind::Content => A,
        _ => NONE,
    }
}

pub(crate) fn child_fields(kind: Kind) -> ChildFields
    ensures { result ≡ child_fields (uses kind) }
{
    match kind {
        Kind::Module => A,
        Kind::Statement(k) => statement_fields(k),
        Kind::Expression(k) => expression_fields(k),
        Kind::Header | Kind::Declared(_) | Kind::Unknown => NONE,
    }
}

// Whether a field that holds v names a child.
pub(crate) fn names_child(h: Holds, v: u16) -> bool
    ensures { result ≡ names_child h v }
{
    h == Holds::Child || (h == Holds::Argument && v != 0)
}
