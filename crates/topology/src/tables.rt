// The table of the points of a draft or of a tree in service. Whoever holds one knows without a test
// that its points keep the rules and limits.
ghost use Rattle.std.specs.Prelude.{◌≤◌, vec_capacity, vec_items};
ghost use Rattle.points.specs.Rules.{Limited, Placed};

use points::Point;

mod counts;
mod methods;
mod rules;

// Points in the order of their numbers. They name their parents by number, as texts, books and refusals name points;
// boxes of children would want memory for each point that is entered. The room is reserved when the table is made, so
// that only making one can want memory.
#[derive(Drop)]
pub(crate) struct Table {
    records: Vec<Point>,
    ghost room: { 128 ≤ vec_capacity records },
    ghost placed: { Placed (vec_items records) },
    ghost limited: { Limited (vec_items records) },
}
