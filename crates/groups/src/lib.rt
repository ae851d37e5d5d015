//! What is done on each member of a group, the schedulers of a file that are in step with one of
//! them, by number, in the lent words.
// Four functions, not one over what is done: a closure that writes to the lent state would leave
// its caller nothing to know of it.
#![tactic(auto)]

ghost use Rattle.std.specs.Prelude.{◌≡◌, ◌+◌};
ghost use Rattle.language.specs.Places.{home};
ghost use Rattle.language.specs.Inner.Labels.{same_label};
ghost use Rattle.lists.specs.Inner.Families.{LivingFamilies};
ghost use Rattle.lists.specs.Inner.Lists.{ListsFit};
ghost use Rattle.groups.specs.Inner.Members.{members_in, is_active_member, any_active_on};
ghost use Rattle.groups.specs.Inner.Members.{lacks_room, room_on_each, woken_if, ended_if};
ghost use Rattle.groups.specs.Inner.Members.{ready_if, PairOf};
ghost use Rattle.groups.specs.Inner.Members.{woken_on, ended_on, ready_on, GroupOf};
ghost use Rattle.groups.specs.Inner.Members.{Each, HasRoomOn, IdleOn, RoomIf, IdleIf};

use language::Place;
use language::group::{Schedulers, in_step};
use lists::list::{end_instant, first_active, has_room_to_wake, wake};
use lists::wait::living_families;
use machine::offset::State;

// The number of the first scheduler.
const HOME: u8 = 2;

// Whether the scheduler s is a member of q's group and has an active thread.
fn is_active_member(schedulers: &Schedulers, q: Place, s: Place, state: &State) -> bool
    requires { PairOf q.number s.number }
    ensures { result
        ≡ is_active_member schedulers.now.labels q.number state.now s.number }
{
    in_step(&schedulers.labels, q, s) && first_active(state, s) != 0
}

/// Whether some member of q's group has an active thread.
pub fn any_active(schedulers: &Schedulers, q: Place, state: &State) -> bool
    requires { GroupOf schedulers.now.count q.number }
    ensures { result
        ≡ any_active_on (members_in schedulers.now.labels schedulers.now.count q.number) state.now }
{
    (HOME..HOME + schedulers.count).any(|k| {
        let s = Place::known(u64::from(k));
        is_active_member(schedulers, q, s, state)
    })
}

// Whether s is a member in whose active list those that await the event have no room.
fn lacks_room(schedulers: &Schedulers, q: Place, s: Place, state: &State, e: u8) -> bool
    requires { PairOf q.number s.number × ListsFit state.now }
    ensures { result
        ≡ lacks_room schedulers.now.labels q.number e state.now s.number }
{
    in_step(&schedulers.labels, q, s) && !has_room_to_wake(state, s, e)
}

/// Whether those that await the event have room in the active list of each member of q's group.
pub fn room_on_each(schedulers: &Schedulers, q: Place, state: &State, e: u8) -> bool
    requires { GroupOf schedulers.now.count q.number × ListsFit state.now }
    ensures { result
        ≡ room_on_each (members_in schedulers.now.labels schedulers.now.count q.number) e state.now }
{
    !(HOME..HOME + schedulers.count).any(|k| {
        let s = Place::known(u64::from(k));
        lacks_room(schedulers, q, s, state, e)
    })
}

// They become active there, if s is a member, where they have room then.
fn wake_if_member(schedulers: &Schedulers, q: Place, s: Place, state: &mut State, e: u8)
    requires { PairOf q.number s.number × ListsFit state.old
        × RoomIf schedulers.now.labels q.number e state.old s.number }
    ensures { state.new
        ≡ woken_if schedulers.now.labels q.number e state.old s.number }
{
    if in_step(&schedulers.labels, q, s) {
        wake(state, s, e);
    }
}

/// They become active on each member, where they have room.
pub fn wake_on_each(schedulers: &Schedulers, q: Place, state: &mut State, e: u8)
    requires { GroupOf schedulers.now.count q.number × ListsFit state.old
        × Each (same_label schedulers.now.labels q.number) (HasRoomOn e state.old) home
        (home + schedulers.now.count) }
    ensures { state.new
        ≡ woken_on (members_in schedulers.now.labels schedulers.now.count q.number) e
        state.old }
{
    for k in HOME..HOME + schedulers.count {
        wake_if_member(schedulers, q, Place::known(u64::from(k)), state, e);
    }
}

// The instant of s ends, if it is a member, which has no active thread then: how many entries were
// ready, where that is the set of threads in whose families some thread lives.
fn end_if_member(schedulers: &Schedulers, q: Place, s: Place, state: &mut State, living: u64) -> u64
    requires { PairOf q.number s.number × ListsFit state.old
        × IdleIf schedulers.now.labels q.number state.old s.number
        × LivingFamilies state.old living }
    ensures count { result
        ≡ ready_if schedulers.now.labels q.number state.old s.number }
    ensures words { state.new
        ≡ ended_if schedulers.now.labels q.number state.old s.number }
{
    if !in_step(&schedulers.labels, q, s) {
        return 0;
    }
    end_instant(state, s, living)
}

/// The instant ends on each member of q's group, none of which has an active thread: how many
/// entries were ready.
pub fn end_on_each(schedulers: &Schedulers, q: Place, state: &mut State) -> u64
    requires { GroupOf schedulers.now.count q.number × ListsFit state.old
        × Each (same_label schedulers.now.labels q.number) (IdleOn state.old) home
        (home + schedulers.now.count) }
    ensures count { result
        ≡ ready_on (members_in schedulers.now.labels schedulers.now.count q.number) state.old }
    ensures words { state.new
        ≡ ended_on (members_in schedulers.now.labels schedulers.now.count q.number) state.old }
{
    let living = living_families(state);
    let mut ready: u64 = 0;
    for k in HOME..HOME + schedulers.count {
        ready += end_if_member(schedulers, q, Place::known(u64::from(k)), state, living);
    }
    ready
}
