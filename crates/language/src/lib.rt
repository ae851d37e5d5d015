// The words of the language: places here, and type words, effects, schedulers in step, kinds of
// frames, frames and verdicts in modules.
#![tactic(auto)]

ghost use Rattle.std.specs.Prelude.{◌≡◌, true, ◌-◌, eqb};
ghost use Rattle.language.specs.Places.{private, home, is_place, is_scheduler, has_place};
ghost use Rattle.language.specs.Places.{has_scheduler};
ghost use Rattle.language.specs.Inner.Reads.{ReadsPlace, place_read};

pub mod effect;
pub mod frame;
pub mod group;
pub mod kind;
pub mod limit;
pub mod refusal;
pub mod type_word;

// A place: where a thread stands, and who owns a cell. Private (1), or one of the schedulers, 2 to
// 9: only the constructors make one.
#[derive(Clone, Copy, Debug, PartialEq, Eq)]
pub struct Place {
    number: u8,
}

/// A number that names no place.
#[derive(Clone, Copy, Debug, PartialEq, Eq)]
pub struct NoPlace {
    pub number: u64,
}

impl TryFrom<u64> for Place {
    type Error = NoPlace;

    ghost try_from_gives = { ReadsPlace };

    fn try_from(number: u64) -> Result<Self, NoPlace> {
        let first = u64::from(Place::PRIVATE.number);
        let last = u64::from(Place::LAST_SCHEDULER.number);
        if first <= number && number <= last {
            Ok(Place {
                number: number as u8,
            })
        } else {
            Err(NoPlace { number })
        }
    }
}

impl Place {
    pub const PRIVATE: Place = Place { number: 1 };

    pub const HOME: Place = Place { number: 2 };

    pub const LAST_SCHEDULER: Place = Place { number: 9 };

    /// The scheduler of that number; `None` where it names none.
    #[tactic(auto, unfolding(crate::specs::Inner::Reads::place_read))]
    pub fn scheduler(number: u64) -> Option<Self>
        ensures { result ≡ place_read (is_scheduler number) number }
    {
        Place::try_from(number)
            .ok()
            .filter(|place| place.is_scheduler())
    }

    // The place of a number that has been found to be one: a field of a frame that passes refusal
    // 5, a word of a state in range, a choice or a member that is a scheduler. So no answer is
    // needed for the others: the contract refuses them.
    pub fn known(n: u64) -> Self
        requires { is_place n ≡ true }
        ensures { result ≡ record { number = n } }
    {
        Place { number: n as u8 }
    }

    pub fn number(self) -> u8
        ensures { result ≡ self.number }
    {
        self.number
    }

    // As a word of a state has it.
    pub fn word(self) -> u64
        ensures { result ≡ self.number }
    {
        u64::from(self.number)
    }

    pub fn is_private(self) -> bool
        ensures { result ≡ eqb self.number private }
    {
        self == Place::PRIVATE
    }

    // Only the constructors make a place, so each is one; but no type says so.
    fn is_place(self) -> bool
        ensures { result ≡ is_place self.number }
    {
        Place::PRIVATE.number <= self.number && self.number <= Place::LAST_SCHEDULER.number
    }

    pub fn is_scheduler(self) -> bool
        ensures { result ≡ is_scheduler self.number }
    {
        Place::HOME.number <= self.number && self.number <= Place::LAST_SCHEDULER.number
    }

    /// Which of the schedulers it is, from 0.
    // No type of schedulers beside `Place`: document 01 names one type of places, with constructors.
    pub fn index(self) -> usize
        requires { is_scheduler self.number ≡ true }
        ensures { result ≡ self.number - home }
    {
        usize::from(self.number - Place::HOME.number)
    }

    // Whether the number names a place of a file with so many schedulers.
    pub fn is_in_file(n: u64, schedulers: u8) -> bool
        ensures { result ≡ has_place schedulers n }
    {
        let private = u64::from(Place::PRIVATE.number);
        private <= n
            && n <= u64::from(Place::LAST_SCHEDULER.number)
            && n - private <= u64::from(schedulers)
    }

    // Whether the number names a scheduler of a file with so many.
    pub fn is_scheduler_in_file(n: u64, schedulers: u8) -> bool
        ensures { result ≡ has_scheduler schedulers n }
    {
        u64::from(Place::HOME.number) <= n && Place::is_in_file(n, schedulers)
    }
}
