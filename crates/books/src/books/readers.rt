// Making books, and reading them.
ghost use Rattle.std.specs.Prelude.{◌≡◌, ◌+◌, ◌≤◌, length, IfSome};
ghost use Rattle.books.specs.Books.{book_at, entry, lawful_header, offset_in};
ghost use Rattle.books.specs.Bytes.{long};

use crate::books::{Book, WorkingBook};
use crate::headers::Header;
use readings::Source;
use terms::Place;

// The number that stands in a block where there is no amount.
const NOTHING: u32 = 0xFFFF_FFFF;

// What the four bytes at `at` stand for. It stays apart from the reading, and so asks that the bytes are there, since
// in one function the check does not find the proof (tried).
fn amount_at(bytes: &[u8], at: usize) -> Option<u32>
    requires { at + 4 ≤ length bytes.now }
    ensures { result ≡ entry (long bytes.now at) }
{
    let number = u32::from_be_bytes(*bytes[at..at + 4].first_chunk().unwrap());
    (number != NOTHING).then_some(number)
}

impl<'a> Book<'a> {
    pub fn new(bytes: &'a [u8]) -> Book<'a>
        ensures { result.bytes.now ≡ bytes.now }
    {
        let header = Header::read(bytes);
        Book { bytes, header }
    }

    // At which byte the amount of a place begins, if the book has the place.
    pub(crate) fn offset(&self, place: Place) -> Option<usize>
        ensures value { result ≡ offset_in (lawful_header self.now.bytes.now) place }
        ensures inside { IfSome result (λ at. at + 4 ≤ length self.now.bytes.now) }
    {
        self.header?.offset(place)
    }
}

impl<'a> WorkingBook<'a> {
    pub fn new(bytes: &'a mut [u8]) -> WorkingBook<'a>
        ensures value { result.bytes.now ≡ bytes.old }
        ensures lender { result.bytes.ghost_name ≡ bytes.entry.ghost_name }
    {
        WorkingBook { bytes }
    }

    // The book as it is now, for whoever reads much of it: its header is read once.
    pub fn as_book(&self) -> Book<'_>
        ensures { result.bytes.now ≡ self.now.bytes.now }
    {
        Book::new(self.bytes)
    }
}

impl Source for Book<'_> {
    ghost at = { λ s. book_at s.bytes.now };

    #[tactic(auto, unfolding(crate::specs::Books::book_at))]
    fn reading(&self, place: Place) -> Option<u32> {
        let at = self.offset(place)?;
        amount_at(self.bytes, at)
    }
}

impl Source for WorkingBook<'_> {
    ghost at = { λ s. book_at s.bytes.now };

    fn reading(&self, place: Place) -> Option<u32> {
        self.as_book().reading(place)
    }
}
