//! What is refused: the rule that is broken, and the frame. specs/Refusals says in the documents'
//! words what each rule is.
ghost use Rattle.std.specs.Prelude.{◌≡◌};
ghost use Rattle.language.specs.Refusals.{rule_number};

/// A rule that refuses a text, a call or a turn, with the documents' number of it.
#[derive(Clone, Copy, Debug, PartialEq, Eq)]
pub enum Rule {
    /// The text is empty.
    EmptyText = 1,
    /// It has more than 17,408 bytes.
    LongText = 2,
    /// It is not lines of 16 digits and a line feed.
    MalformedText = 3,
    /// The header.
    WrongHeader = 4,
    /// The kind of a frame, or one of its fields.
    WrongField = 5,
    /// The order of frames, or a frame's children.
    WrongOrder = 6,
    /// Depth over 24.
    TooDeep = 7,
    /// No such variable, shared cell or event, or a module that is not below.
    Unbound = 8,
    /// Types.
    IllTyped = 9,
    /// A private cell in a public new cell, or as an argument.
    Escaping = 10,
    /// An effect that a place does not allow.
    WrongEffect = 11,
    /// What only a linked thread may do, while unlinked.
    WhileUnlinked = 12,
    /// A loop's body that can end at once.
    InstantLoop = 13,
    /// A lent buffer of the wrong length, or a state with a word out of range.
    WrongState = 14,
    /// A choice that names no party.
    NoParty = 15,
    /// Nothing is ready.
    NothingReady = 16,
    /// A 257th cell.
    CellsSpent = 17,
    /// A 65th thread.
    ThreadsSpent = 18,
    /// An access to another thread's or scheduler's cell or event.
    Foreign = 19,
    /// Nothing that the thread may do next.
    Stuck = 20,
    /// Children that are no tree.
    WrongTree = 21,
}

impl Rule {
    /// The number by which the documents, the listings and C name it.
    pub fn number(self) -> u8
        ensures { result ≡ rule_number self }
    {
        self as u8
    }
}

/// What is refused: the rule that is broken, and the frame that it names.
#[derive(Clone, Copy, Debug, PartialEq, Eq)]
pub struct Refusal {
    pub rule: Rule,
    pub frame: u16,
}

/// What a check of a text comes to: it refuses nothing, or this.
pub type Verdict = Result<(), Refusal>;
