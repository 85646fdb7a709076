// Books of readings over bytes, and the book check.
#![tactic(auto)]

mod books;
mod headers;

pub use books::{Book, WorkingBook, book_check};
