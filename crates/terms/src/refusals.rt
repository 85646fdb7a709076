// Why a call was refused.
ghost use Rattle.std.specs.Prelude.{◌≡◌, Some};
ghost use Rattle.terms.specs.Refusals.{first_number, number_of, place_of, refusal_text};

use crate::channels::{Channel, Place};
use std::fmt;

// Each case holds the values of its place. A refused call has changed nothing of what it was given, but
// for numbers that were lent to work in.
#[derive(Clone, Copy, Debug, PartialEq, Eq)]
pub enum Refusal {
    // A point entered with a letter that stands for no class.
    UnknownClass { point: usize },
    // A point entered behind 128 others.
    TooManyPoints { point: usize },
    // A point whose parent is not an earlier point of a class that it may name.
    WrongParent { point: usize },
    // A point that passes the limit on roots, on members of a network, on networks or on their depth.
    LimitPassed { point: usize },
    // A draft that was to go into service without a root, or with a network that has no member:
    // the monitor of the first such network, 0 for the main one and where there is no root.
    NotReady { network: usize },
    // A book whose header or length breaks a rule.
    BrokenBook,
    // A correction at a place outside the extent of its source.
    OutsideExtent(Place),
    // Nothing at a place whose amount is needed.
    Missing(Place),
    // An amount above the limit of one interval.
    TooLarge(Place),
    // An hourly amount of a profile above its limit.
    ProfileTooLarge { point: usize, hour: usize },
    // A network whose burden on a channel is beyond the limit: its monitor, 0 for the main network.
    BurdenTooLarge { network: usize, channel: Channel },
    // Lent memory that is too short for the run of an hour.
    TooShort { hour: u16 },
    // A line of a tree text that has another shape; line 0 is a text that is too long.
    BadText { line: usize },
}

impl Refusal {
    // The number under which the refusal is reported, as the rules give it; in code a refusal is its case.
    pub fn number(self) -> u32
        ensures { result ≡ number_of self }
    {
        match self {
            Refusal::UnknownClass { .. } => 1,
            Refusal::TooManyPoints { .. } => 2,
            Refusal::WrongParent { .. } => 3,
            Refusal::LimitPassed { .. } => 4,
            Refusal::NotReady { .. } => 5,
            Refusal::BrokenBook => 6,
            Refusal::OutsideExtent(_) => 7,
            Refusal::Missing(_) => 8,
            Refusal::TooLarge(_) | Refusal::ProfileTooLarge { .. } => 9,
            Refusal::BurdenTooLarge { .. } => 10,
            Refusal::TooShort { .. } => 11,
            Refusal::BadText { .. } => 19,
        }
    }

    // The first number of the place, 0 where the refusal has none.
    pub fn place(self) -> usize
        ensures { result ≡ first_number (place_of self) }
    {
        match self {
            Refusal::UnknownClass { point }
            | Refusal::TooManyPoints { point }
            | Refusal::WrongParent { point }
            | Refusal::LimitPassed { point }
            | Refusal::ProfileTooLarge { point, .. } => point,
            Refusal::OutsideExtent(place) | Refusal::Missing(place) | Refusal::TooLarge(place) =>
                place.point,
            Refusal::NotReady { network } | Refusal::BurdenTooLarge { network, .. } => network,
            Refusal::BrokenBook => 0,
            Refusal::TooShort { hour } => usize::from(hour),
            Refusal::BadText { line } => line,
        }
    }
}

// The line that reports a refusal, without its line feed: X, the number, the first number of the place.
impl fmt::Display for Refusal {
    ghost output = { λ e. Some (refusal_text e) };

    fn fmt<W: fmt::Write>(&self, f: &mut fmt::Formatter<W>) -> fmt::Result {
        let number = self.number();
        let place = self.place();
        write!(f, "X {number} {place}")
    }
}
