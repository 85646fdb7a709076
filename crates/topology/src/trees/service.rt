// A draft goes into service.
ghost use Rattle.std.specs.Prelude.{◌≡◌, IfOk};
ghost use Rattle.topology.specs.Service.{built_in, Serviced};
ghost use Rattle.topology.specs.Trees.{points_in, points_of};

use super::{Draft, Tree};
use crate::tables::Table;
use points::{Class, Point};
use std::alloc::{AllocError, Global};
use terms::Refusal;

impl Draft {
    // Fills the tree with the points of the draft. A refusal leaves the tree as it was.
    pub fn put_into_service(&self, tree: &mut Tree) -> Result<(), Refusal>
        ensures { Serviced (points_in self.now) result (points_of tree.old) (points_of tree.new) }
    {
        if let Some(network) = self.table.first_unready() {
            return Err(Refusal::NotReady { network });
        }
        tree.table.refill(&self.table);
        Ok(())
    }
}

impl Tree {
    // The tree before any draft has gone into service: a root and one member.
    pub fn built_in(heap: Global) -> Result<Tree, AllocError>
        ensures { IfOk result (λ t. points_of t ≡ built_in) }
    {
        let mut table = Table::new(heap)?;
        table.push(Point {
            class: Class::Root,
            parent: 0,
        });
        table.push(Point {
            class: Class::Member,
            parent: 0,
        });
        Ok(Tree { table })
    }
}
