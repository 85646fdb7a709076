// Prints the hour values of hour 0, by the tree in tree.txt and the readings in book.bin of the working
// directory, or why one of them is refused.
#![tactic(auto)]

mod lists;

use lists::hour_listing;
use std::io::ErrorKind;
use std::{fs, io};

// What a file holds; a file that is missing counts as empty.
fn read_or_empty(rt: &HostRuntime, path: &str) -> io::Result<Vec<u8>> {
    match fs::read(rt, path) {
        Err(e) if e.kind() == ErrorKind::NotFound => Ok(Vec::new(rt.alloc())),
        read => read,
    }
}

fn main(rt: HostRuntime) -> io::Result<()> {
    let text = read_or_empty(&rt, "tree.txt")?;
    let book = read_or_empty(&rt, "book.bin")?;
    let listing = hour_listing(rt.alloc(), text.as_slice(), book.as_slice())?;
    print!(rt; "{listing}")
}

#[cfg(test)]
mod tests {
    use super::read_or_empty;
    use std::test::Fail;

    #[test]
    fn a_missing_file_counts_as_empty(rt: HostRuntime) -> Result<(), Fail> {
        assert!(rt; read_or_empty(&rt, "there is no such file")?.is_empty());
        Ok(())
    }
}
