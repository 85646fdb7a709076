// The numbers of some points, or of networks, in order.
ghost use Rattle.std.specs.Prelude.{◌≡◌, ◌-◌};
ghost use Rattle.std.specs.Iterator.{at_most};
ghost use Rattle.topology.specs.Numbers.{Gives, numbers_left, picks, picked_from};
ghost use Rattle.topology.specs.Tables.{listed};

use crate::tables::Table;
use std::ops::Range;

// Which numbers: those of the members of a network, or those of the networks. It is no closure, since a
// caller is handed an iterator that holds it, and no function may hand out a closure.
#[derive(Clone, Copy)]
pub(crate) enum Choice {
    MembersOf(usize),
    Networks,
}

// Goes over the numbers from 0 to the last point's, and gives those that are chosen.
#[derive(Drop)]
pub struct Numbers<'a> {
    table: &'a Table,
    choice: Choice,
    left: Range<usize>,
}

impl Choice {
    fn picks(self, table: &Table, p: usize) -> bool
        ensures { result ≡ picks (listed table.now) self p }
    {
        match self {
            Choice::MembersOf(network) => table
                .point_at(p)
                .is_some_and(|q| q.is_member_of(network)),
            Choice::Networks => table.is_network(p),
        }
    }
}

impl Numbers<'_> {
    // All that are chosen.
    pub(crate) fn new(table: &Table, choice: Choice) -> Numbers<'_>
        ensures { numbers_left result ≡ picked_from (listed table.now) choice 0 }
    {
        let left = 0..table.points().len() + 1;
        Numbers {
            table,
            choice,
            left,
        }
    }
}

impl Iterator for Numbers<'_> {
    type Item = usize;

    ghost next_gives = { λ s r t. Gives (numbers_left s) r (numbers_left t) };

    ghost remaining = { λ s. at_most (s.left.end - s.left.start) };

    fn next(&mut self) -> Option<usize> {
        let table = self.table;
        let choice = self.choice;
        self.left.find(|p| choice.picks(table, *p))
    }
}
