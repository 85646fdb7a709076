// The book check.
ghost use Rattle.std.specs.Prelude.{◌≡◌, if◌then◌else◌};
ghost use Rattle.terms.specs.Answers.{answered};
ghost use Rattle.books.specs.Books.{book_tests, well_formed};

use crate::books::Book;
use crate::headers::Header;
use terms::Refusal;

impl Book<'_> {
    // Refuses bytes whose header or length breaks a rule.
    pub fn check(bytes: &[u8]) -> Result<(), Refusal>
        ensures { answered result ≡ book_tests bytes.now }
    {
        match Header::read(bytes) {
            Some(_) => Ok(()),
            None => Err(Refusal::BrokenBook),
        }
    }
}

// The same as a number, which a host in C is given: 0 for a book that keeps the rules, else that of the
// refusal, 6.
pub fn book_check(bytes: &[u8]) -> u32
    ensures { result ≡ (if well_formed bytes.now then 0 else 6) }
{
    match Book::check(bytes) {
        Ok(()) => 0,
        Err(refusal) => refusal.number(),
    }
}
