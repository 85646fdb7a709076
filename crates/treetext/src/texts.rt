// Drafts and trees from a tree text.
ghost use Rattle.std.specs.Prelude.{◌≡◌, [], IfErr, IfOk, OnOk};
ghost use Rattle.terms.specs.Answers.{gives};
ghost use Rattle.topology.specs.Trees.{points_in, points_of};
ghost use Rattle.treetext.specs.Reads.{DraftFailed, LinesEntered, TreeFailed};
ghost use Rattle.treetext.specs.Text.{DraftRead, TreeRead};

use crate::errors::ReadError;
use crate::lines::{Line, read_line};
use std::alloc::Global;
use terms::Refusal;
use topology::{Draft, Tree};

// The most bytes that a tree text may have.
const TEXT_LIMIT: usize = 4096;

// Enters a point for each line into a new draft, up to the first line that is refused.
fn enter_lines(draft: &mut Draft, text: &[u8]) -> Result<(), Refusal>
    requires { points_in draft.old ≡ [] }
    ensures { LinesEntered text.now result (points_in draft.new) }
{
    let mut rest = text;
    while !rest.is_empty() {
        let Some(line) = read_line(rest) else {
            let line = draft.points().len() + 1;
            return Err(Refusal::BadText { line });
        };
        draft.enter(char::from(line.letter), line.parent)?;
        rest = line.rest;
    }
    Ok(())
}

// The draft that a text describes, or the refusal that the text earns. Only making the draft can want
// memory, and that comes after the test of the length.
pub fn read_draft(heap: Global, text: &[u8]) -> Result<Draft, ReadError>
    ensures read { IfOk result (λ d. DraftRead text.now (gives (points_in d))) }
    ensures failed { IfErr result (λ e. DraftFailed text.now e) }
{
    if text.len() > TEXT_LIMIT {
        return Err(ReadError::Refused(Refusal::BadText { line: 0 }));
    }
    let mut draft = Draft::new(heap)?;
    enter_lines(&mut draft, text)?;
    Ok(draft)
}

// Puts the tree that a text describes into service. A refusal, or want of memory for the draft,
// leaves the tree as it was.
pub fn read_tree(heap: Global, text: &[u8], tree: &mut Tree) -> Result<(), ReadError>
    ensures read { IfOk result (λ u. TreeRead text.now (Ok u) (points_of tree.old) (points_of tree.new)) }
    ensures failed { IfErr result (λ e. TreeFailed text.now e (points_of tree.old) (points_of tree.new)) }
{
    let draft = read_draft(heap, text)?;
    draft.put_into_service(tree)?;
    Ok(())
}
