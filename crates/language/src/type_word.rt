// Type words: four hexadecimal digits, the owners of nested cells from the outside in, then 1
// (number) or 2 (truth).
ghost use Rattle.std.specs.Prelude.{◌≡◌, ◌^◌};
ghost use Rattle.language.specs.Places.{is_place};
ghost use Rattle.language.specs.Inner.Reads.{place_read, cell_read};
ghost use Rattle.language.specs.Types.{cell_depth, is_cell, owner_of, content_of, public};
ghost use Rattle.language.specs.Types.{owner_digit, type_word, content_word};

use crate::Place;

pub const NUMBER: u16 = 0x0001;

pub const TRUTH: u16 = 0x0002;

// What a word's digits count: the last, then the owners from the inside out.
const UNIT_0: u16 = 0x0001;

const UNIT_1: u16 = 0x0010;

const UNIT_2: u16 = 0x0100;

const UNIT_3: u16 = 0x1000;

// The unit of a word's leftmost digit.
fn leftmost_unit(t: u16) -> u16
    ensures { result ≡ 16 ^ cell_depth t }
{
    if t < UNIT_1 {
        UNIT_0
    } else if t < UNIT_2 {
        UNIT_1
    } else if t < UNIT_3 {
        UNIT_2
    } else {
        UNIT_3
    }
}

pub fn is_cell(t: u16) -> bool
    ensures { result ≡ is_cell t }
{
    UNIT_1 <= t
}

// The leftmost digit of a cell's type, its outermost owner; 0 where it is no cell's.
fn owner_digit(t: u16) -> u16
    ensures { result ≡ owner_of t }
{
    if is_cell(t) { t / leftmost_unit(t) } else { 0 }
}

/// The outermost owner of a cell's type; a number and a truth have none.
#[tactic(auto, unfolding(crate::specs::Inner::Reads::place_read))]
pub fn owner_of(t: u16) -> Option<Place>
    ensures { result ≡ place_read (is_place (owner_of t)) (owner_of t) }
{
    Place::try_from(u64::from(owner_digit(t))).ok()
}

// The type of what a cell of that type holds.
pub fn content_of(t: u16) -> u16
    ensures { result ≡ content_of t }
{
    t % leftmost_unit(t)
}

#[tactic(auto, unfolding(crate::specs::Types::public))]
pub fn is_public(t: u16) -> bool
    ensures { result ≡ public t }
{
    owner_digit(t) != u16::from(Place::PRIVATE.number)
}

/// The type of a cell of that owner around a type; `None` where there are three cells already or
/// the owner is no place.
pub fn cell_type(owner: Place, t: u16) -> Option<u16>
    ensures { result ≡ cell_read owner.number t }
{
    if !owner.is_place() {
        return None;
    }
    if UNIT_3 <= t {
        return None;
    }
    Some(u16::from(owner.number) * (16 * leftmost_unit(t)) + t)
}

// Whether `o` may be an owner's digit with `left` to its left.
fn is_owner_digit(schedulers: u8, left: u16, o: u16) -> bool
    ensures { result ≡ owner_digit schedulers left o }
{
    if o == 0 {
        return left == 0;
    }
    let private = u16::from(Place::PRIVATE.number);
    Place::is_in_file(u64::from(o), schedulers) && (o != private || left <= private)
}

/// Whether t is a type word of a file with so many schedulers.
#[tactic(auto, unfolding(crate::specs::Types::type_word))]
pub fn is_type_word(schedulers: u8, t: u16) -> bool
    ensures { result ≡ type_word schedulers t }
{
    let last = t % 16;
    (last == NUMBER || last == TRUTH)
        && is_owner_digit(schedulers, t / UNIT_2 % 16, t / UNIT_1 % 16)
        && is_owner_digit(schedulers, t / UNIT_3 % 16, t / UNIT_2 % 16)
        && is_owner_digit(schedulers, 0, t / UNIT_3 % 16)
}

/// Whether t may be the type of a shared cell's content.
#[tactic(auto, unfolding(crate::specs::Types::content_word), using(crate::proofs::Words::depth_room))]
pub fn is_content_word(schedulers: u8, t: u16) -> bool
    ensures { result ≡ content_word schedulers t }
{
    is_type_word(schedulers, t) && is_public(t) && t < UNIT_3
}
