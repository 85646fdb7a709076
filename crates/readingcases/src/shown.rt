// What the cases give, as it is printed.
use crate::cases::{Change, Filled};
use books::{Book, book_check};
use readings::{Correctable, Profile, Source, hour_value, integrate_hour};
use std::alloc::{AllocError, Global};
use std::fmt;
use terms::{Amount, AmountC, AmountG, Channel, Mwh, Place, Refusal};

// A refusal with its whole place.
#[derive(Clone, Copy)]
pub(crate) struct Placed(pub Refusal);

impl fmt::Display for Placed {
    fn fmt<W: fmt::Write>(&self, f: &mut fmt::Formatter<W>) -> fmt::Result {
        let refusal = self.0;
        match refusal {
            Refusal::OutsideExtent(place) | Refusal::Missing(place) | Refusal::TooLarge(place) => {
                write!(f, "{refusal} {} {}", place.channel, place.interval)
            }
            Refusal::ProfileTooLarge { hour, .. } => write!(f, "{refusal} hour {hour}"),
            _ => write!(f, "{refusal}"),
        }
    }
}

// An amount that a source has, or that it has nothing.
#[derive(Clone, Copy)]
struct Reading(Option<u32>);

impl fmt::Display for Reading {
    fn fmt<W: fmt::Write>(&self, f: &mut fmt::Formatter<W>) -> fmt::Result {
        match self.0 {
            Some(amount) => write!(f, "{amount}"),
            None => write!(f, "nothing"),
        }
    }
}

// Makes one correction, and writes what it answers and what its place has then.
fn write_corrected<S: Correctable>(
    text: &mut String,
    source: &mut S,
    change: Change,
) -> Result<(), AllocError> {
    match source.correct(change.place, change.amount) {
        Ok(()) => write!(text, "ok")?,
        Err(refusal) => {
            let answer = Placed(refusal);
            write!(text, "{answer}")?;
        }
    }
    let amount = Reading(source.reading(change.place));
    write!(text, " {amount}; ")
}

// Writes the hour values of the points 1 to n, each as hour C and hour G, or the refusal.
fn write_hours<S: Source>(
    text: &mut String,
    heap: Global,
    source: &S,
    n: usize,
    hour: u16,
) -> Result<(), AllocError> {
    let mut hours = vec![in heap; 0; n.saturating_mul(2)]?;
    if let Err(refusal) = integrate_hour(source, hour, hours.as_mut_slice()) {
        let answer = Placed(refusal);
        return write!(text, "{answer}");
    }
    for point in 1..=n {
        let consumed: Option<AmountC> = hour_value(hours.as_slice(), point);
        let generated: Option<AmountG> = hour_value(hours.as_slice(), point);
        if let (Some(consumed), Some(generated)) = (consumed, generated) {
            let c = Mwh(consumed.wh());
            let g = Mwh(generated.wh());
            write!(text, "{c} {g}, ")?;
        }
    }
    Ok(())
}

// Makes the corrections of a line and integrates the hour.
pub(crate) fn worked<S: Correctable>(
    heap: Global,
    source: &mut S,
    case: Filled,
    line: &str,
) -> Result<String, AllocError> {
    let mut text = String::new(heap);
    for piece in line.split(';').skip(1) {
        if !piece.trim().starts_with('=') {
            write_corrected(&mut text, source, Change::from(piece.trim()))?;
        }
    }
    write_hours(&mut text, heap, source, case.n as usize, case.hour)?;
    Ok(text)
}

// The book check on so many bytes, as a host in C gets it and as a refusal, and what the book has first.
pub(crate) fn checked(heap: Global, len: usize, mut bytes: Vec<u8>) -> Result<String, AllocError> {
    bytes.resize(len, 0)?;
    let code = book_check(bytes.as_slice());
    let first = Place {
        point: 1,
        channel: Channel::C,
        interval: 0,
    };
    let amount = Reading(Book::new(bytes.as_slice()).reading(first));
    match Book::check(bytes.as_slice()) {
        Ok(()) => format!(in heap; "{code} kept, {amount}"),
        Err(refusal) => format!(in heap; "{code} {refusal}, {amount}"),
    }
}

// The twelve intervals of an hour of a profile on channel C, and the hour values of the points up to its own.
pub(crate) fn spread(
    heap: Global,
    profile: &Profile,
    point: usize,
    hour: u16,
) -> Result<String, AllocError> {
    let mut text = String::new(heap);
    let first = 12 * u32::from(hour);
    for interval in first..first + 12 {
        let place = Place {
            point,
            channel: Channel::C,
            interval,
        };
        let part = profile.reading(place).unwrap_or(0);
        write!(text, "{part} ")?;
    }
    write_hours(&mut text, heap, profile, point, hour)?;
    Ok(text)
}

// The net of an amount on channel C and one on channel G.
pub(crate) fn netted(heap: Global, c: u32, g: u32) -> Result<String, AllocError> {
    let consumed = AmountC::from_wh(i64::from(c));
    let generated = AmountG::from_wh(i64::from(g));
    let net = Mwh(consumed - generated);
    format!(in heap; "{net}")
}
