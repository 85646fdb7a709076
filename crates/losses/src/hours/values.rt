// Hour values, and their sums.
ghost use Rattle.std.specs.Prelude.{◌≡◌, suc, ◌*◌, ◌<◌, ◌≤◌, length, pos, unsigned_abs};
ghost use Rattle.readings.specs.Hours.{hour_most};

use crate::hours::MeteredHour;
use points::Point;
use readings::hour_value;
use terms::Amount;

impl MeteredHour<'_> {
    ghost use Rattle.losses.specs.Metered.{SumsWhere, values_on};

    // The hour value of the point at place i, which has the number i + 1.
    pub(crate) fn value_at<A: Amount>(&self, i: usize) -> A
        requires { i < length self.now.points.now }
        ensures value { A.Amount.watt_hours result ≡ pos (values_on A.Amount.on self.now (suc i)) }
        ensures small { unsigned_abs (A.Amount.watt_hours result) ≤ hour_most }
    {
        hour_value(self.values, i + 1).unwrap()
    }

    // The sum of the hour values of the points that are meant, on the channel of the amount that is asked for.
    pub(crate) fn sum_where<A: Amount, F: Fn(Point) -> bool>(&self, is_meant: F) -> A
        requires { F.IsAlwaysCallable is_meant }
        ensures { SumsWhere (F.post is_meant) A.Amount.on self.now (A.Amount.watt_hours result) }
    {
        let mut sum = 0i64;
        for (i, q) in self.points.iter().enumerate() {
            if is_meant(*q) {
                sum += self.value_at::<A>(i).wh();
            }
        }
        A::from_wh(sum)
    }
}
