// The carry rule: how the burden of a network is shared among its members.
ghost use Rattle.std.specs.Prelude.{◌≡◌, ◌+◌, ◌*◌, ◌%◌, ◌<◌, ◌≤◌, length, pos, IfOk, OnOk, unsigned_abs};
ghost use Rattle.terms.specs.Answers.{answered, passing};
ghost use Rattle.readings.specs.Hours.{hour_most};
ghost use Rattle.shares.specs.Carry.{left_over, quota};
ghost use Rattle.shares.specs.Rules.{sum_limit};
ghost use Rattle.shares.specs.Runs.{burden_limit, limit_test};
ghost use Rattle.losses.specs.Blocks.{entry};

use crate::hours::Network;
use terms::{Amount, Refusal};

// The most that a burden may be, either way, in Wh.
const BURDEN_LIMIT: u64 = 30_000_000_000;

// A burden within the limit, in Wh.
#[derive(Clone, Copy)]
struct Burden {
    wh: i64,
    ghost light: { unsigned_abs wh ≤ burden_limit },
}

// The share of a member with this hour value, and the carry behind it. Where the members' sum is 0, nothing is
// shared.
fn share_of(burden: Burden, value: u64, carry: u64, total: u64) -> (i64, u64)
    requires hourly { value ≤ hour_most }
    requires small { carry ≤ sum_limit }
    ensures share { result.0 ≡ quota total burden.wh (unsigned_abs burden.wh * value + carry) }
    ensures rest { 0 < total → result.1 ≡ (unsigned_abs burden.wh * value + carry) % total }
    ensures none { total ≡ 0 → result.1 ≡ carry }
{
    if total == 0 {
        return (0, carry);
    }
    let whole = burden.wh.unsigned_abs() * value + carry;
    let part = (whole / total) as i64;
    if burden.wh < 0 {
        (-part, whole % total)
    } else {
        (part, whole % total)
    }
}

// What of a burden is unborne: all of it where the members' sum is 0, else nothing.
fn left_over<A: Amount>(total: A, burden: Burden) -> A
    ensures { A.Amount.watt_hours result ≡ left_over (unsigned_abs (A.Amount.watt_hours total)) burden.wh }
{
    A::from_wh(if total.wh() == 0 { burden.wh } else { 0 })
}

impl Network<'_> {
    ghost use Rattle.losses.specs.Metered.{members_on, SharesOut, with_borne};

    // The loss that the monitor bears, 0 for the main network, which no point monitors alone.
    fn borne_by_monitor(&self, borne: &[i64]) -> i64
        ensures { result ≡ entry borne.now self.now.number }
    {
        let place = self.number.checked_sub(1);
        place.and_then(|i| borne.get(i)).copied().unwrap_or(0)
    }

    // The burden: the charge, and what the monitor bears.
    fn burden<A: Amount>(&self, charge: A, borne: &[i64]) -> Result<Burden, Refusal>
        ensures test { passing (answered result)
            ≡ limit_test (with_borne (A.Amount.watt_hours charge) self.now borne.now) self.now.number A.Amount.on }
        ensures value { IfOk result (λ b. b.wh ≡ with_borne (A.Amount.watt_hours charge) self.now borne.now) }
    {
        match charge.wh().checked_add(self.borne_by_monitor(borne)) {
            Some(wh) if wh.unsigned_abs() <= BURDEN_LIMIT => Ok(Burden { wh }),
            _ => Err(Refusal::BurdenTooLarge {
                network: self.number,
                channel: A::channel(),
            }),
        }
    }

    // Shares a burden among the members, in point order. Other entries stay as they are. The block of borne losses is
    // the caller's memory. That it is as long as the points stays asked for: a value that holds it by &mut, tells its
    // length and is moved on is not covered by the check (tried), and behind a &mut of its own it would have to say
    // after each step that its network is the same: no plainer. So does what the total is: it is added up once, for the
    // rule, and handed on.
    fn share_out<A: Amount>(&self, burden: Burden, total: A, borne: &mut [i64])
        requires wide { length borne.old ≡ length self.now.hour.points.now }
        requires sum { A.Amount.watt_hours total ≡ pos (members_on A.Amount.on self.now) }
        ensures { SharesOut A.Amount.on self.now burden.wh borne.old borne.new }
    {
        let total = total.wh().unsigned_abs();
        let mut carry = 0u64;
        for (i, q) in self.hour.points.iter().enumerate() {
            if q.is_member_of(self.number) {
                let value = self.hour.value_at::<A>(i).wh().unsigned_abs();
                let (share, rest) = share_of(burden, value, carry, total);
                borne[i] = share;
                carry = rest;
            }
        }
    }

    // Shares the burden on one channel among the members, and answers what of it is unborne; or refuses a burden
    // beyond the limit.
    pub(crate) fn settle_on<A: Amount>(
        &self,
        charge: A,
        total: A,
        borne: &mut [i64],
    ) -> Result<A, Refusal>
        requires wide { length borne.old ≡ length self.now.hour.points.now }
        requires sum { A.Amount.watt_hours total ≡ pos (members_on A.Amount.on self.now) }
        ensures test { passing (answered result)
            ≡ limit_test (with_borne (A.Amount.watt_hours charge) self.now borne.old) self.now.number A.Amount.on }
        ensures shared { OnOk result
            (SharesOut A.Amount.on self.now (with_borne (A.Amount.watt_hours charge) self.now borne.old) borne.old borne.new) }
        ensures unborne { IfOk result
            (λ u. A.Amount.watt_hours u
            ≡ left_over (members_on A.Amount.on self.now) (with_borne (A.Amount.watt_hours charge) self.now borne.old)) }
    {
        let burden = self.burden(charge, borne)?;
        self.share_out(burden, total, borne);
        Ok(left_over(total, burden))
    }
}
