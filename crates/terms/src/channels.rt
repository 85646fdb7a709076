// The two channels of a meter, and amounts of energy on each.
ghost use Rattle.std.specs.Prelude.{◌≡◌, ◌∷◌, [], ℤ, ◌-ℤ◌, FitsSigned, Some};
ghost use Rattle.std.specs.Int.{w64};
ghost use Rattle.terms.specs.Channels.{letter_of};
ghost use Rattle.terms.specs.declared.channels.Channel.{Channel};
ghost use Rattle.terms.specs.declared.channels.Channel.TheVariants.{C as OnC, G as OnG};

use std::fmt;
use std::marker::PhantomData;
use std::ops::Sub;

// C meters consumption, G generation.
#[derive(Clone, Copy, Debug, PartialEq, Eq)]
pub enum Channel {
    C,
    G,
}

// The letter of a channel.
impl fmt::Display for Channel {
    ghost output = { λ c. Some (letter_of c ∷ []) };

    fn fmt<W: fmt::Write>(&self, f: &mut fmt::Formatter<W>) -> fmt::Result {
        f.write_str(match self {
            Self::C => "C",
            Self::G => "G",
        })
    }
}

// Where a reading stands: a point, numbered from 1, a channel, and an interval of five minutes, numbered
// from 0.
#[derive(Clone, Copy, Debug, PartialEq, Eq)]
pub struct Place {
    pub point: usize,
    pub channel: Channel,
    pub interval: u32,
}

// A channel as a type, so that amounts on different channels have different types.
pub trait OneChannel: Copy {
    ghost it: { Channel };

    fn it() -> Channel
        ensures { result ≡ it };
}

// Channel C as a type.
#[derive(Clone, Copy, Debug, PartialEq, Eq)]
pub struct Consumption;

// Channel G as a type.
#[derive(Clone, Copy, Debug, PartialEq, Eq)]
pub struct Generation;

impl OneChannel for Consumption {
    ghost it = { OnC };

    fn it() -> Channel {
        Channel::C
    }
}

impl OneChannel for Generation {
    ghost it = { OnG };

    fn it() -> Channel {
        Channel::G
    }
}

// An amount on one channel, in whole watt-hours.
#[derive(Clone, Copy, Debug, PartialEq, Eq)]
pub struct AmountOn<K>(i64, PhantomData<K>);

// An amount on channel C.
pub type AmountC = AmountOn<Consumption>;

// An amount on channel G.
pub type AmountG = AmountOn<Generation>;

// What amounts of either channel have in common, for code that serves both.
pub trait Amount: Copy {
    // The channel that the amount is on.
    ghost on: { Channel };

    ghost watt_hours: { Self → ℤ };

    fn channel() -> Channel
        ensures { result ≡ on };

    fn from_wh(wh: i64) -> Self
        ensures { watt_hours result ≡ wh };

    fn wh(self) -> i64
        ensures { result ≡ watt_hours self };
}

impl<K: OneChannel> Amount for AmountOn<K> {
    ghost on = { K.OneChannel.it };

    ghost watt_hours = { λ a. a.0 };

    fn channel() -> Channel {
        K::it()
    }

    fn from_wh(wh: i64) -> AmountOn<K> {
        AmountOn(wh, PhantomData)
    }

    fn wh(self) -> i64 {
        let AmountOn(number, _) = self;
        number
    }
}

// The net, C minus G: the one way in which amounts of the two channels meet. As with every
// difference, whoever takes it shows that it fits its type.
impl Sub<AmountG> for AmountC {
    type Output = i64;

    ghost can_sub = { λ c g. FitsSigned w64 (c.0 -ℤ g.0) };

    ghost sub_gives = { λ c g r. r ≡ c.0 -ℤ g.0 };

    fn sub(self, generated: AmountG) -> i64 {
        self.0 - generated.0
    }
}
