// The integration of an hour.
ghost use Rattle.std.specs.Prelude.{◌≡◌, ◌+◌, ◌*◌, ◌/◌, ◌^◌, ◌<◌, ◌≤◌, length, Some, IfOk};
ghost use Rattle.std.specs.Option.{option_map};
ghost use Rattle.terms.specs.Answers.{answered};
ghost use Rattle.terms.specs.Channels.{ordinal};
ghost use Rattle.readings.specs.Hours.{HourRead, hour_tests, hour_value, slot};
ghost use Rattle.readings.specs.Places.{limit, needed};

use crate::sources::{INTERVAL_LIMIT, Source};
use std::ops::Range;
use terms::{Amount, Channel, Place, Refusal};

// The amount at a place where one is needed.
fn needed_amount<S: Source>(source: &S, place: Place) -> Result<u32, Refusal>
    ensures answer { answered result ≡ needed (S.Source.at source.now place) place }
    ensures found { IfOk result (λ amount. S.Source.at source.now place ≡ Some amount) }
    ensures low { IfOk result (λ amount. amount ≤ limit) }
{
    match source.reading(place) {
        None => Err(Refusal::Missing(place)),
        Some(amount) if amount > INTERVAL_LIMIT => Err(Refusal::TooLarge(place)),
        Some(amount) => Ok(amount),
    }
}

// The intervals of an hour.
fn intervals_of(hour: u16) -> Range<u32>
    ensures first { result.start ≡ 12 * hour }
    ensures twelve { result.end ≡ 12 * hour + 12 }
{
    let first = 12 * u32::from(hour);
    first..first + 12
}

// Where the hour value of a point on a channel stands among lent numbers. They are the caller's memory, a row of numbers
// and no pairs: what a refused hour leaves in it is said number by number (rule of the project).
fn slot_of(point: usize, channel: Channel) -> usize
    requires from_one { 1 ≤ point }
    requires room { 2 * point < 2 ^ 64 }
    ensures { result ≡ slot point (ordinal channel) }
{
    2 * (point - 1) + channel as usize
}

// Reads hour `hour` of the points 1 to n, where `hours` has room for n pairs of numbers, and puts the
// hour C and the hour G of each point there; or refuses the first place where there is nothing (8) or
// too much (9), in the order point, channel, interval. The loops are written out, since the first faulty place in this
// order ends all of them, and the sums before it stand.
pub fn integrate_hour<S: Source>(source: &S, hour: u16, hours: &mut [i64]) -> Result<(), Refusal>
    ensures tests { answered result ≡ hour_tests (S.Source.at source.now) (length hours.old / 2) hour }
    ensures read { HourRead (S.Source.at source.now) (length hours.old / 2) hour hours.old hours.new (answered result) }
{
    let n = hours.len() / 2;
    'places: {
        for point in 1..=n {
            for channel in [Channel::C, Channel::G] {
                let mut sum: u32 = 0;
                for interval in intervals_of(hour) {
                    let place = Place {
                        point,
                        channel,
                        interval,
                    };
                    match needed_amount(source, place) {
                        Ok(amount) => sum += amount,
                        Err(refusal) => break 'places Err(refusal),
                    }
                }
                hours[slot_of(point, channel)] = i64::from(sum);
            }
        }
        Ok(())
    }
}

// The hour value of a point on the channel of the amount that is asked for.
pub fn hour_value<A: Amount>(hours: &[i64], point: usize) -> Option<A>
    ensures { option_map A.Amount.watt_hours result ≡ hour_value hours.now point A.Amount.on }
{
    if !(1..=hours.len() / 2).contains(&point) {
        return None;
    }
    Some(A::from_wh(hours[slot_of(point, A::channel())]))
}
