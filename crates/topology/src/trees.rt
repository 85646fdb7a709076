// A draft and a tree in service, each with its table of points.
ghost use Rattle.points.specs.Rules.{Complete};
ghost use Rattle.topology.specs.Tables.{listed};

use crate::tables::Table;

mod entries;
mod questions;
mod service;

// The points entered so far.
#[derive(Drop)]
pub struct Draft {
    table: Table,
}

// A tree in service: it also has a root, and every network of it has a member.
#[derive(Drop)]
pub struct Tree {
    table: Table,
    ghost complete: { Complete (listed table) },
}
