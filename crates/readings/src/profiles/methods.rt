// Making a profile, and reading it.
ghost use Rattle.std.specs.Prelude.{◌≡◌, ℕ, ◌<◌, ◌≤◌, [], ◌∷◌, OnOk, IfOk, IfErr};
ghost use Rattle.terms.specs.Refusals.{number_of, place_of};
ghost use Rattle.readings.specs.Profiles.{FirstOver, hour_limit, part, profile_at, Spread, Within};

use crate::profiles::Profile;
use crate::sources::Source;
use terms::{Channel, Place, Refusal};

// The largest amount of one hour, in Wh.
const HOUR_LIMIT: u32 = 180_000_000;

impl Profile {
    // Refuses the first amount above the limit.
    #[tactic(auto, using(crate::proofs::Spreading::spread))]
    pub fn new(point: usize, amounts: [u32; 24]) -> Result<Profile, Refusal>
        ensures made { IfOk result (λ p. (p.point ≡ point) × (p.amounts ≡ amounts)) }
        ensures within { OnOk result (Within amounts) }
        ensures spread { OnOk result (Spread point amounts) }
        ensures first { IfErr result (λ e. (h : ℕ) × FirstOver amounts h × (number_of e ≡ 9) × (place_of e ≡ point ∷ h ∷ [])) }
    {
        match amounts.iter().position(|amount| *amount > HOUR_LIMIT) {
            Some(hour) => Err(Refusal::ProfileTooLarge { point, hour }),
            None => Ok(Profile { point, amounts }),
        }
    }
}

// The part of an hour's amount that interval k of the hour has: what the hour has up to the interval's
// end less what it has up to its beginning, in whole watt-hours.
fn part_of(amount: u32, k: u32) -> u32
    requires within { amount ≤ hour_limit }
    requires early { k < 12 }
    ensures { result ≡ part amount k }
{
    (k + 1) * amount / 12 - k * amount / 12
}

impl Source for Profile {
    ghost at = { λ s. profile_at s.point s.amounts };

    fn reading(&self, place: Place) -> Option<u32> {
        if place.point != self.point {
            return None;
        }
        match place.channel {
            Channel::C => {
                let amount = self.amounts[(place.interval / 12 % 24) as usize];
                Some(part_of(amount, place.interval % 12))
            }
            Channel::G => Some(0),
        }
    }
}
