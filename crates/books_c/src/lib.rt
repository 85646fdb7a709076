// The book check for a host in C: the function over the library that the host links.
#![tactic(auto)]

ghost use Rattle.std.specs.Prelude.{◌≡◌, if◌then◌else◌};
ghost use Rattle.books.specs.Books.{well_formed};

// 0 for a book that keeps the rules, else the number of the refusal, 6: a number, since C has no `Result`. A host hands
// over where the bytes begin and how many there are.
#[unsafe(no_mangle)]
pub extern "C" fn book_check(bytes: &[u8]) -> u32
    ensures { result ≡ (if well_formed bytes.now then 0 else 6) }
{
    books::book_check(bytes)
}
