// Books: readings in bytes.
ghost use Rattle.std.specs.Prelude.{◌≡◌};
ghost use Rattle.books.specs.Books.{lawful_header};

use crate::headers::Header;

mod checks;
mod corrections;
mod readers;

pub use checks::book_check;

// A book over bytes that are only read. Its header is read when the book is made, and the type says that
// it is that of the bytes. Where they break a rule the book has nothing at any place.
#[derive(Drop)]
pub struct Book<'a> {
    bytes: &'a [u8],
    header: Option<Header>,
    ghost read: { header ≡ lawful_header bytes.now },
}

// A book over bytes that corrections write to. It is no `Book` of another reference: a lender learns what is said of
// the `&mut` itself (`tied`), which a type parameter would hide. It keeps no header under an invariant: with one (tried)
// the check covers no array of working books. `as_book` is a view that reads the header once.
#[derive(Drop)]
pub struct WorkingBook<'a> {
    bytes: &'a mut [u8],
}
