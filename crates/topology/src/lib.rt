// Metering trees: the draft in which points are entered, and the tree in service.
#![tactic(auto)]

mod numbers;
mod tables;
mod trees;

pub use numbers::Numbers;
pub use trees::{Draft, Tree};

#[cfg(test)]
mod tests;
