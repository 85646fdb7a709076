// The lines that the program prints.
ghost use Rattle.std.specs.Prelude.{◌≡◌, ◌*◌, ◌/◌, ◌≤◌, length, IfOk, string_bytes, OnOk};
ghost use Rattle.terms.specs.Answers.{answered};
ghost use Rattle.terms.specs.declared.channels.Channel.TheVariants.{C as OnC, G as OnG};
ghost use Rattle.hourlist.specs.Lists.{first_hour, HoursOf, lines_to, Listed, point_line, printed_hour, standing};

use books::Book;
use points::Point;
use readings::{hour_value, integrate_hour};
use std::alloc::{AllocError, Global};
use terms::{Amount, AmountC, AmountG, Mwh, Refusal};
use topology::Tree;
use treetext::{ReadError, read_tree};

// The most bytes that the program takes for a book.
const BOOK_LIMIT: usize = 60_000;

// Two hour values for each of at most 128 points. They stand on the stack, so that they want no memory from the heap.
const HOUR_VALUES: usize = 256;

// Checks the book, and puts the hour values of hour 0 into the lent numbers.
fn first_hour(book: &[u8], hours: &mut [i64]) -> Result<(), Refusal>
    ensures tests { answered result ≡ first_hour book.now (length hours.old / 2) }
    ensures sums { OnOk result (HoursOf book.now (length hours.old / 2) hours.new) }
{
    if book.len() > BOOK_LIMIT {
        return Err(Refusal::BrokenBook);
    }
    Book::check(book)?;
    integrate_hour(&Book::new(book), 0, hours)
}

// A line for each point: its number, its class, its hour C and its hour G.
fn hour_lines(heap: Global, points: &[Point], hours: &[i64]) -> Result<String, AllocError>
    requires { length hours.now ≡ 2 * length points.now }
    ensures { IfOk result (λ s. string_bytes s ≡ lines_to points.now (standing hours.now OnC) (standing hours.now OnG) (length points.now)) }
{
    let mut text = String::new(heap);
    for (i, point) in points.iter().enumerate() {
        let number = i + 1;
        let class = point.class;
        let consumed: AmountC = hour_value(hours, number).unwrap();
        let generated: AmountG = hour_value(hours, number).unwrap();
        let c = Mwh(consumed.wh());
        let g = Mwh(generated.wh());
        write!(text, "{number} {class} {c} {g}\n")?;
    }
    Ok(text)
}

// The lines of hour 0 of these points, by the readings of a book, or the one line that reports a refusal.
fn hour_of(
    heap: Global,
    points: &[Point],
    book: &[u8],
    hours: &mut [i64],
) -> Result<String, AllocError>
    requires { length hours.old ≡ 2 * length points.now }
    ensures { IfOk result (λ s. string_bytes s ≡ printed_hour (first_hour book.now (length points.now)) points.now book.now) }
{
    match first_hour(book, hours) {
        Ok(()) => hour_lines(heap, points, hours),
        Err(refusal) => format!(in heap; "{refusal}\n"),
    }
}

// The lines of hour 0 of the tree that a text describes, by the readings of a book; or the one line that
// reports a refusal.
pub fn hour_listing(heap: Global, text: &[u8], book: &[u8]) -> Result<String, AllocError>
    ensures { IfOk result (λ s. Listed text.now book.now (string_bytes s)) }
{
    let mut tree = Tree::built_in(heap)?;
    match read_tree(heap, text, &mut tree) {
        Ok(()) => {
            let mut hours = [0; HOUR_VALUES];
            let used = &mut hours[0..2 * tree.point_count()];
            hour_of(heap, tree.points(), book, used)
        }
        Err(ReadError::Refused(refusal)) => format!(in heap; "{refusal}\n"),
        Err(ReadError::OutOfMemory(error)) => Err(error),
    }
}
