// The tree text: drafts and trees from lines.
#![tactic(auto)]

mod errors;
mod lines;
mod texts;

pub use errors::ReadError;
pub use texts::{read_draft, read_tree};
