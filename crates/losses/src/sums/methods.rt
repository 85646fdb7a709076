// Making the sums of a network, and its loss.
ghost use Rattle.std.specs.Prelude.{◌≡◌, MatchOption};
ghost use Rattle.losses.specs.Limits.{AreSums, IsSum};
ghost use Rattle.losses.specs.Charging.{loss_by, SumsOf};

use crate::sums::NetworkSums;
use terms::{Amount, AmountC, AmountG};

// The most that a sum of a network may be, in Wh.
const SUM_LIMIT: i64 = 5_760_000_000;

// The amount, if it can be a sum of a network.
fn checked<A: Amount>(amount: A) -> Option<A>
    ensures { MatchOption result (IsSum (A.Amount.watt_hours amount) → ⊥) (λ a. (a ≡ amount) × IsSum (A.Amount.watt_hours amount)) }
{
    matches!(amount.wh(), 0..=SUM_LIMIT).then_some(amount)
}

impl NetworkSums {
    // The sums, or nothing where one is below 0 or above the limit.
    pub fn new(
        monitors_c: AmountC,
        monitors_g: AmountG,
        members_c: AmountC,
        members_g: AmountG,
    ) -> Option<NetworkSums>
        ensures { MatchOption result (AreSums monitors_c.0 monitors_g.0 members_c.0 members_g.0 → ⊥) (λ s. SumsOf monitors_c monitors_g members_c members_g s) }
    {
        Some(NetworkSums {
            monitors_c: checked(monitors_c)?,
            monitors_g: checked(monitors_g)?,
            members_c: checked(members_c)?,
            members_g: checked(members_g)?,
        })
    }

    // The loss of the network: the net of its monitors minus the net of its members (command 11).
    pub fn loss(self) -> i64
        ensures { result ≡ loss_by self }
    {
        (self.monitors_c - self.monitors_g) - (self.members_c - self.members_g)
    }
}
