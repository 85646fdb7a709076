// Reads tree texts from the standard input, one to a line, and prints what each gives.
//
// A line is pieces with spaces between them. In a piece / stands for a line feed, ^ for a carriage
// return and _ for a space, and a piece that ends in *N stands N times. A line that begins with # is
// printed as it is.
#![tactic(auto)]

use std::alloc::{AllocError, Global};
use std::io;
use topology::Tree;
use treetext::{ReadError, read_tree};

fn push_piece(text: &mut Vec<u8>, piece: &str) -> Result<(), AllocError> {
    for b in piece.bytes() {
        let byte = match b {
            b'/' => b'\n',
            b'^' => b'\r',
            b'_' => b' ',
            other => other,
        };
        text.push(byte)?;
    }
    Ok(())
}

// The text that a line of the input stands for.
fn spelled_out(heap: Global, case: &str) -> Result<Vec<u8>, AllocError> {
    let mut text = Vec::new(heap);
    for part in case.split(' ') {
        let (piece, times) = match part.split_once('*') {
            Some((piece, times)) => (piece, times.parse().unwrap_or(0)),
            None => (part, 1usize),
        };
        for _ in 0..times {
            push_piece(&mut text, piece)?;
        }
    }
    Ok(text)
}

// Each network with the numbers of its members, as 0: 2 3; 3: 4 5.
fn write_networks(shown: &mut String, tree: &Tree) -> Result<(), AllocError> {
    for network in tree.networks() {
        write!(shown, "; {network}:")?;
        for member in tree.members(network) {
            write!(shown, " {member}")?;
        }
    }
    Ok(())
}

// For each point its class, its parent, the networks on its path, and whether it lies beneath point 3.
fn write_points(shown: &mut String, tree: &Tree) -> Result<(), AllocError> {
    for p in 0..tree.point_count() + 2 {
        if let (Some(class), Some(parent)) = (tree.class(p), tree.parent(p)) {
            let path = tree.path_len(p).unwrap_or(0);
            let mark = if tree.is_beneath(p, 3) { "<3" } else { "" };
            write!(shown, " {class}{parent}.{path}{mark}")?;
        }
    }
    Ok(())
}

fn outcome(heap: Global, case: &str) -> Result<String, AllocError> {
    let text = spelled_out(heap, case)?;
    let mut tree = Tree::built_in(heap)?;
    let read = read_tree(heap, text.as_slice(), &mut tree);
    let count = tree.point_count();
    match read {
        Ok(()) => {}
        Err(ReadError::Refused(refusal)) => {
            return format!(in heap; "{refusal}, and the tree has {count} points");
        }
        Err(ReadError::OutOfMemory(error)) => return Err(error),
    }
    let mut shown = format!(in heap; "{count} points")?;
    write_networks(&mut shown, &tree)?;
    if count <= 16 {
        shown.push(';')?;
        write_points(&mut shown, &tree)?;
    }
    Ok(shown)
}

// Goes over the lines as readingcases does. A library for these ten lines, with a trait for what a case gives, would be
// longer than they are: no plainer.
fn main(rt: HostRuntime) -> io::Result<()> {
    for line in rt.lines(rt.alloc()) {
        let case = line?;
        if case.as_str().starts_with('#') {
            println!(rt; "{case}")?;
            continue;
        }
        let shown = outcome(rt.alloc(), case.as_str())?;
        println!(rt; "{shown}  <-  [{case}]")?;
    }
    Ok(())
}
