//! What a turn comes to.
ghost use Rattle.std.specs.Prelude.{◌≡◌};
ghost use Rattle.acts.specs.Inner.Transitions.{action};

use language::Place;
use language::refusal::Rule;

/// The arguments of a start: how many, 0 to 2, and their words, 0 for one that is not there.
// Three words and no list of values: `arguments_of` of specs/Inner reads them so, and the new thread's
// words are written from them as they stand.
#[derive(Clone, Copy, Debug, PartialEq, Eq)]
pub struct Arguments {
    pub count: u64,
    pub first: u64,
    pub second: u64,
}

/// What becomes of the thread.
#[derive(Clone, Copy, Debug, PartialEq, Eq)]
pub enum Transition {
    /// It stays first in its list.
    Stays,
    /// It leaves it for none: it has ended or is unlinked.
    Leaves,
    /// It joins the next list of that scheduler.
    Joins(Place),
    /// It starts that module with those arguments, and waits for it or not.
    Starts(bool, u8, Arguments),
    /// It generates that event.
    Generates(u8),
    /// It awaits that event.
    Awaits(u8),
}

/// What else changes in the thread, once its top item is off its continuation.
// A turn changes a few of the thread's words, so it names the change, and its commit makes it where
// the words lie.
#[derive(Clone, Copy, Debug, PartialEq, Eq)]
pub enum Change {
    /// Nothing.
    Same,
    /// One item more.
    Item(u64),
    /// Two, the top one first.
    Items(u64, u64),
    /// One variable more, with its body above a drop of it.
    Let(u64, u64),
    /// One variable less.
    Drop,
    /// Another place.
    Move(Place),
    /// That place, with the body above 'back to here'.
    Enter(Place, u64),
    /// It ends.
    End,
}

/// What a turn that nothing refuses comes to.
#[derive(Clone, Copy, Debug, PartialEq, Eq)]
pub struct Action {
    pub transition: Transition,
    pub change: Change,
}

/// A turn that nothing refuses; any other is the `Err` of the rule, 17, 19 or 20.
pub fn comes_to(transition: Transition, change: Change) -> Result<Action, Rule>
    ensures { result ≡ action transition change }
{
    Ok(Action { transition, change })
}
