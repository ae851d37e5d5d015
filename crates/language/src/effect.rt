// Effects: which schedulers' cells and events a statement or an expression may access.
ghost use Rattle.std.specs.Prelude.{◌≡◌, true};
ghost use Rattle.language.specs.Places.{is_scheduler};
ghost use Rattle.language.specs.Effects.{only, with_member, set_within, subset};
ghost use Rattle.language.specs.Effects.{no_effect, ◌∪◌, with_owner, with_event};
ghost use Rattle.language.specs.Inner.Labels.{group_in, within_in};

use crate::Place;
use crate::group::{Labels, group_set};

// Two sets of schedulers, 2 to 9, a bit for each: scheduler p is a member where bit p - 2 is set. So
// each number is a set of schedulers.
#[derive(Clone, Copy, Debug, PartialEq, Eq)]
pub struct Effect {
    cells: u8,
    events: u8,
}

// The bit of a scheduler.
fn bit_of(place: Place) -> u8
    requires { is_scheduler place.number ≡ true }
    ensures { result ≡ only place.number }
{
    1u8 << (place.number - Place::HOME.number)
}

// The set with one owner added, if that is a scheduler.
fn with_member(set: u8, owner: Place) -> u8
    ensures { result ≡ with_member owner.number set }
{
    if owner.is_scheduler() {
        set | bit_of(owner)
    } else {
        set
    }
}

// Whether nothing but the scheduler `place` is a member: of a private place, whether nothing is.
#[tactic(auto, unfolding(crate::specs::Effects::set_within))]
fn set_within(set: u8, place: Place) -> bool
    ensures { result ≡ set_within place.number set }
{
    set == 0 || place.is_scheduler() && set == bit_of(place)
}

fn is_subset(set: u8, whole: u8) -> bool
    ensures { result ≡ subset set whole }
{
    set | whole == whole
}

// Whether each member is in step with the scheduler `place`: of a private place, whether there is
// none.
fn in_group(set: u8, labels: &Labels, place: Place) -> bool
    ensures { result ≡ subset set (group_in labels.now place.number) }
{
    set == 0 || place.is_scheduler() && is_subset(set, group_set(labels, place))
}

impl Effect {
    /// No scheduler's cell and no scheduler's event.
    pub fn none() -> Self
        ensures { result ≡ no_effect }
    {
        Self {
            cells: 0,
            events: 0,
        }
    }

    /// The set of cells' owners as a number, a bit for each scheduler: for an effect kept in a word.
    pub fn cells(self) -> u8
        ensures { result ≡ self.cells }
    {
        self.cells
    }

    /// The set of events' owners as a number.
    pub fn events(self) -> u8
        ensures { result ≡ self.events }
    {
        self.events
    }

    /// The effect of two sets as numbers.
    pub fn of_sets(cells: u8, events: u8) -> Self
        ensures { result ≡ record { cells = cells; events = events } }
    {
        Self { cells, events }
    }

    /// Both effects together.
    pub fn joined(self, other: Effect) -> Self
        ensures { result ≡ self ∪ other }
    {
        Self {
            cells: self.cells | other.cells,
            events: self.events | other.events,
        }
    }

    /// With the owner of a cell added, if that is a scheduler.
    // One method for cells and one for events: document 01 names effects with by-value methods.
    pub fn with_owner(self, owner: Place) -> Self
        ensures { result ≡ with_owner owner.number self }
    {
        Self {
            cells: with_member(self.cells, owner),
            events: self.events,
        }
    }

    /// With the owner of an event added.
    pub fn with_event(self, owner: Place) -> Self
        ensures { result ≡ with_event owner.number self }
    {
        Self {
            cells: self.cells,
            events: with_member(self.events, owner),
        }
    }

    /// Whether nothing but the scheduler `place` is a member of the cells' set, and nothing but
    /// schedulers in step with it of the events'.
    #[tactic(auto, unfolding(crate::specs::Inner::Labels::within_in))]
    pub fn within(self, labels: &Labels, place: Place) -> bool
        ensures { result ≡ within_in labels.now place.number self }
    {
        set_within(self.cells, place) && in_group(self.events, labels, place)
    }
}
