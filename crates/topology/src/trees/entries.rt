// Entering points into a draft.
ghost use Rattle.std.specs.Prelude.{◌≡◌, [], IfOk};
ghost use Rattle.topology.specs.Entries.{Entered, judged};
ghost use Rattle.topology.specs.Trees.{points_in};

use super::Draft;
use crate::tables::Table;
use points::{Class, Point};
use std::alloc::{AllocError, Global};
use terms::Refusal;

// The most points that a tree may have.
const POINT_LIMIT: usize = 128;

impl Draft {
    // A draft without points.
    pub fn new(heap: Global) -> Result<Draft, AllocError>
        ensures { IfOk result (λ d. points_in d ≡ []) }
    {
        let table = Table::new(heap)?;
        Ok(Draft { table })
    }

    // The points entered so far, in the order of their numbers.
    pub fn points(&self) -> &[Point]
        ensures { result.now ≡ points_in self.now }
    {
        self.table.points()
    }

    // Enters a point, and answers its number. A refusal leaves the draft as it was.
    pub fn enter(&mut self, letter: char, parent: usize) -> Result<usize, Refusal>
        ensures { Entered (points_in self.old) (judged (points_in self.old) letter parent) result (points_in self.new) }
    {
        let point = self.points().len() + 1;
        let class = Class::try_from(letter).map_err(|_| Refusal::UnknownClass { point })?;
        if self.points().len() >= POINT_LIMIT {
            return Err(Refusal::TooManyPoints { point });
        }
        if !self.table.parent_fits(class, parent) {
            return Err(Refusal::WrongParent { point });
        }
        if !self.table.has_room(class, parent) {
            return Err(Refusal::LimitPassed { point });
        }
        self.table.push(Point { class, parent });
        Ok(point)
    }
}
