//! Kinds of frames, and what each field of a kind holds.
ghost use Rattle.std.specs.Prelude.{◌≡◌};
ghost use Rattle.language.specs.Kinds.{kind_of, class_of, is_header, is_module};
ghost use Rattle.language.specs.Kinds.{declaration_rank, declares};

/// Declarations that stand before the modules: a shared cell, K 01; an event, K 03; two schedulers
/// in step, K 04.
#[derive(Clone, Copy, Debug, PartialEq, Eq)]
pub enum DeclarationKind {
    Shared,
    Event,
    Link,
}

/// Statements, K 10 to 1B.
#[derive(Clone, Copy, Debug, PartialEq, Eq)]
pub enum StatementKind {
    Nothing,
    Then,
    DoAt,
    Start,
    StartWait,
    Cooperate,
    Let,
    Store,
    If,
    While,
    Generate,
    Await,
}

/// Expressions, K 20 to 28.
#[derive(Clone, Copy, Debug, PartialEq, Eq)]
pub enum ExpressionKind {
    Number,
    Truth,
    Variable,
    SharedCell,
    NewCell,
    Content,
    Sum,
    Less,
    Choose,
}

/// What kind a frame is of; no other number names one.
#[derive(Clone, Copy, Debug, PartialEq, Eq)]
pub enum Kind {
    Header,
    Declared(DeclarationKind),
    Module,
    Statement(StatementKind),
    Expression(ExpressionKind),
    Unknown,
}

/// What a frame is, as a child.
#[derive(Clone, Copy, Debug, PartialEq, Eq)]
pub enum Class {
    Statement,
    Expression,
    Neither,
}

/// What a field holds.
#[derive(Clone, Copy, Debug, PartialEq, Eq)]
pub enum Use {
    /// Nothing: it is 0.
    Unused,
    /// Any number: of the header, a number, or the index of a variable, a shared cell, an event or
    /// a module.
    Free,
    /// 0 or 1.
    Truth,
    /// A place of the file, private among them; a scheduler of the file.
    Place,
    Scheduler,
    /// A scheduler of the file below the one that S names.
    Lower,
    /// A child of that class.
    Statement,
    Expression,
    /// An expression, or 0 for no argument; the further one needs the first.
    Argument,
    Further,
    /// Of a shared cell: its content type and its first content.
    ContentType,
    FirstContent,
    /// Of a module: how many parameters, and the types of the first and of the second.
    Parameters,
    FirstType,
    SecondType,
}

/// What each of the fields S, A, B and C of a frame holds.
#[derive(Clone, Copy, Debug, PartialEq, Eq)]
pub struct Uses {
    pub s: Use,
    pub a: Use,
    pub b: Use,
    pub c: Use,
}

/// The kind that a number names.
pub fn kind_of(k: u8) -> Kind
    ensures { result ≡ kind_of k }
{
    match k {
        0x00 => Kind::Header,
        0x01 => Kind::Declared(DeclarationKind::Shared),
        0x02 => Kind::Module,
        0x03 => Kind::Declared(DeclarationKind::Event),
        0x04 => Kind::Declared(DeclarationKind::Link),
        0x10 => Kind::Statement(StatementKind::Nothing),
        0x11 => Kind::Statement(StatementKind::Then),
        0x12 => Kind::Statement(StatementKind::DoAt),
        0x13 => Kind::Statement(StatementKind::Start),
        0x14 => Kind::Statement(StatementKind::StartWait),
        0x15 => Kind::Statement(StatementKind::Cooperate),
        0x16 => Kind::Statement(StatementKind::Let),
        0x17 => Kind::Statement(StatementKind::Store),
        0x18 => Kind::Statement(StatementKind::If),
        0x19 => Kind::Statement(StatementKind::While),
        0x1A => Kind::Statement(StatementKind::Generate),
        0x1B => Kind::Statement(StatementKind::Await),
        0x20 => Kind::Expression(ExpressionKind::Number),
        0x21 => Kind::Expression(ExpressionKind::Truth),
        0x22 => Kind::Expression(ExpressionKind::Variable),
        0x23 => Kind::Expression(ExpressionKind::SharedCell),
        0x24 => Kind::Expression(ExpressionKind::NewCell),
        0x25 => Kind::Expression(ExpressionKind::Content),
        0x26 => Kind::Expression(ExpressionKind::Sum),
        0x27 => Kind::Expression(ExpressionKind::Less),
        0x28 => Kind::Expression(ExpressionKind::Choose),
        _ => Kind::Unknown,
    }
}

impl Kind {
    pub fn is_header(self) -> bool
        ensures { result ≡ is_header self }
    {
        self == Kind::Header
    }

    pub fn is_module(self) -> bool
        ensures { result ≡ is_module self }
    {
        self == Kind::Module
    }

    /// Whether it is that declaration.
    pub fn declares(self, declaration: DeclarationKind) -> bool
        ensures { result ≡ declares declaration self }
    {
        self == Kind::Declared(declaration)
    }

    pub fn class(self) -> Class
        ensures { result ≡ class_of self }
    {
        match self {
            Kind::Statement(_) => Class::Statement,
            Kind::Expression(_) => Class::Expression,
            _ => Class::Neither,
        }
    }
}

impl DeclarationKind {
    /// The declarations stand one kind after the other: 1 to 3.
    pub fn rank(self) -> u8
        ensures { result ≡ declaration_rank self }
    {
        self as u8 + 1
    }
}
