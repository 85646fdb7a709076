// The networks of an hour, one after the other.
ghost use Rattle.std.specs.Prelude.{◌≡◌, ◌*◌, ◌≤◌, length, pos, ◌+ℤ◌, ◌-ℤ◌, IfOk, unsigned_abs};
ghost use Rattle.terms.specs.Answers.{answered, passing};
ghost use Rattle.terms.specs.declared.channels.Channel.TheVariants.{C as OnC, G as OnG};
ghost use Rattle.shares.specs.Rules.{sum_limit};
ghost use Rattle.shares.specs.Runs.{network_tests};
ghost use Rattle.losses.specs.Rounds.{Done, excess_most, Settled};

use crate::hours::Network;
use crate::rules::{Charges, LossRule};
use crate::sums::NetworkSums;
use terms::{Amount, AmountC, AmountG, Refusal};

// What networks leave: what no member bears on each channel, and their sign excess.
#[derive(Clone, Copy)]
pub(crate) struct Remainder {
    pub(crate) unborne_c: AmountC,
    pub(crate) unborne_g: AmountG,
    pub(crate) excess: i64,
}

// What a network is charged on both channels together, beyond its loss.
fn excess_of(charges: Charges, loss: i64) -> i64
    requires c { unsigned_abs charges.c.0 ≤ 4 * sum_limit }
    requires g { unsigned_abs charges.g.0 ≤ 4 * sum_limit }
    requires l { unsigned_abs loss ≤ 4 * sum_limit }
    ensures value { result ≡ (charges.c.0 +ℤ charges.g.0) -ℤ loss }
    ensures small { unsigned_abs result ≤ excess_most }
{
    charges.c.wh() + charges.g.wh() - loss
}

impl Network<'_> {
    ghost use Rattle.losses.specs.Metered.{hour_by, members_on, monitors_on, SumsAt};

    // The sum of the monitors: the roots monitor the main network, a monitor its own.
    fn monitor_sum<A: Amount>(&self) -> A
        ensures { A.Amount.watt_hours result ≡ pos (monitors_on A.Amount.on self.now) }
    {
        if self.number == 0 {
            self.hour.sum_where(|q| q.class.is_root())
        } else {
            self.hour.value_at(self.number - 1)
        }
    }

    // The sum of the members.
    fn member_sum<A: Amount>(&self) -> A
        ensures { A.Amount.watt_hours result ≡ pos (members_on A.Amount.on self.now) }
    {
        let number = self.number;
        self.hour.sum_where(|q| q.is_member_of(number))
    }

    // The four sums.
    fn sums(&self) -> NetworkSums
        ensures { SumsAt self.now result }
    {
        NetworkSums {
            monitors_c: self.monitor_sum(),
            monitors_g: self.monitor_sum(),
            members_c: self.member_sum(),
            members_g: self.member_sum(),
        }
    }

    // Settles the network: its loss is charged as the rule says, and its burden on each channel is shared, C before G.
    // The blocks are the caller's memory, one number for each point.
    pub(crate) fn settle<R: LossRule>(
        &self,
        rule: &R,
        borne_c: &mut [i64],
        borne_g: &mut [i64],
    ) -> Result<Remainder, Refusal>
        requires wide_c { length borne_c.old ≡ length self.now.hour.points.now }
        requires wide_g { length borne_g.old ≡ length self.now.hour.points.now }
        requires done_c { Done (hour_by (R.LossRule.rule rule.now) self.now.hour) OnC self.now.number borne_c.old }
        requires done_g { Done (hour_by (R.LossRule.rule rule.now) self.now.hour) OnG self.now.number borne_g.old }
        ensures tests { passing (answered result)
            ≡ network_tests (hour_by (R.LossRule.rule rule.now) self.now.hour) self.now.number }
        ensures settled { IfOk result
            (Settled (hour_by (R.LossRule.rule rule.now) self.now.hour) self.now.number borne_c.new borne_g.new) }
    {
        let sums = self.sums();
        let charges = rule.charges(sums);
        let unborne_c = self.settle_on(charges.c, sums.members_c, borne_c)?;
        let unborne_g = self.settle_on(charges.g, sums.members_g, borne_g)?;
        let excess = excess_of(charges, sums.loss());
        Ok(Remainder {
            unborne_c,
            unborne_g,
            excess,
        })
    }
}
