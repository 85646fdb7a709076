// Reads cases on books, corrections, piles, profiles and hours from the standard input, one to a line, and
// prints what each gives.
//
//     check LEN N T C G       the book check on LEN bytes that begin with this header, all else 0
//     book N T A H            a working book of N points and T intervals with amount A at every place
//     pile N T A H            the same, with nothing at any place, on a profile of point 1 with amount A
//     piles N T A H           the same, on a pile of that profile on one of point 2 with amount 2 A
//     profile P A H           a profile of point P with amount A at every hour
//     net A B                 the net of amount A on channel C and amount B on channel G
//     mwh W                   W watt-hours, which may be negative, in MWh
//
// Behind a source stand corrections, each after a semicolon: point, channel, interval and amount. Each is
// made, and then the place is read. Where = stands before the four, the amount is written into the bytes
// of the book before it is made, whatever it is; 4294967295 is nothing. In the end hour H of N points is
// integrated, of a profile that of P points. A line that begins with # is printed as it is.
#![tactic(auto)]

mod cases;
mod made;
mod shown;

use books::WorkingBook;
use cases::{Backup, Case, Change, Filled};
use made::{filled, header, write_raw};
use readings::{Pile, Profile, Source};
use shown::{Placed, checked, netted, spread, worked};
use std::alloc::{AllocError, Global};
use std::io;
use terms::{Mwh, Refusal};

fn refused(heap: Global, refusal: Refusal) -> Result<String, AllocError> {
    let answer = Placed(refusal);
    format!(in heap; "{answer}")
}

// A book with the amount at every place but those that the line writes.
fn book_case(heap: Global, case: Filled, line: &str) -> Result<String, AllocError> {
    let mut bytes = filled(heap, case)?;
    for piece in line.split(';').skip(1) {
        if let Some(raw) = piece.trim().strip_prefix('=') {
            write_raw(&mut bytes, case, Change::from(raw.trim()));
        }
    }
    let mut book = WorkingBook::new(bytes.as_mut_slice());
    worked(heap, &mut book, case, line)
}

// A book with nothing, on another source, or the refusal that this source is.
fn pile_case<B: Source + Drop>(
    heap: Global,
    case: Filled,
    backup: Result<B, Refusal>,
    line: &str,
) -> Result<String, AllocError> {
    let empty = Filled {
        amount: u32::MAX,
        ..case
    };
    let mut bytes = filled(heap, empty)?;
    let main = WorkingBook::new(bytes.as_mut_slice());
    match backup {
        Ok(backup) => worked(heap, &mut Pile { main, backup }, case, line),
        Err(refusal) => refused(heap, refusal),
    }
}

// A book on what it lies on.
fn filled_case(
    heap: Global,
    case: Filled,
    backup: Backup,
    line: &str,
) -> Result<String, AllocError> {
    let first = Profile::new(1, [case.amount; 24]);
    match backup {
        Backup::Nothing => book_case(heap, case, line),
        Backup::Profile => match first {
            Ok(backup) => pile_case(heap, case, Ok(backup), line),
            Err(refusal) => refused(heap, refusal),
        },
        Backup::Pile => match first {
            Ok(main) => {
                let second = Profile::new(2, [case.amount.saturating_mul(2); 24]);
                let backup = second.map(|backup| Pile { main, backup });
                pile_case(heap, case, backup, line)
            }
            Err(refusal) => refused(heap, refusal),
        },
    }
}

fn outcome(heap: Global, line: &str) -> Result<String, AllocError> {
    match Case::from(line) {
        Case::Check { len, header: lead } => checked(heap, len, header(heap, lead)?),
        Case::Book(case, backup) => filled_case(heap, case, backup, line),
        Case::Profile {
            point,
            amount,
            hour,
        } => match Profile::new(point, [amount; 24]) {
            Ok(profile) => spread(heap, &profile, point, hour),
            Err(refusal) => refused(heap, refusal),
        },
        Case::Net { c, g } => netted(heap, c, g),
        Case::Mwh(wh) => {
            let figure = Mwh(wh);
            format!(in heap; "{figure}")
        }
    }
}

// Goes over the lines as treecases does; see there why.
fn main(rt: HostRuntime) -> io::Result<()> {
    for line in rt.lines(rt.alloc()) {
        let case = line?;
        if case.as_str().starts_with('#') {
            println!(rt; "{case}")?;
            continue;
        }
        let shown = outcome(rt.alloc(), case.as_str())?;
        println!(rt; "{shown}  <-  [{case}]")?;
    }
    Ok(())
}
