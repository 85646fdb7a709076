// The table as a list of points.
ghost use Rattle.std.specs.Prelude.{◌≡◌, ◌<◌, [], ◌∷◌, ◌++◌, length, IfOk, IsTrue};
ghost use Rattle.points.specs.Rules.{has_room, parent_fits};
ghost use Rattle.topology.specs.Tables.{listed};

use super::Table;
use points::Point;
use std::alloc::{AllocError, Global};

impl Table {
    pub(crate) fn new(heap: Global) -> Result<Table, AllocError>
        ensures { IfOk result (λ t. listed t ≡ []) }
    {
        let records = Vec::with_capacity(heap, 128)?;
        Ok(Table { records })
    }

    pub(crate) fn points(&self) -> &[Point]
        ensures { result.now ≡ listed self.now }
    {
        self.records.as_slice()
    }

    // One point more, which passes the tests of entering.
    pub(crate) fn push(&mut self, point: Point)
        requires few { length (listed self.old) < 128 }
        requires fits { IsTrue (parent_fits (listed self.old) (length (listed self.old)) point.class point.parent) }
        requires room { IsTrue (has_room (listed self.old) point.class point.parent) }
        ensures { listed self.new ≡ listed self.old ++ point ∷ [] }
    {
        self.records.push_reserved(point);
    }

    // Takes the points of another table in place of its own.
    pub(crate) fn refill(&mut self, from: &Table)
        ensures { listed self.new ≡ listed from.now }
    {
        self.records.clear();
        let _ = self.records.extend_from_slice(from.points());
    }
}
