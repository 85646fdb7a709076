// What a tree in service is asked.
ghost use Rattle.std.specs.Prelude.{◌≡◌, ◌↔◌, length, IsTrue};
ghost use Rattle.topology.specs.Numbers.{numbers_left};
ghost use Rattle.points.specs.Points.{DepthRule};
ghost use Rattle.topology.specs.Questions.{BeneathMonitor, class_at, members_of, networks_of, parent_at, path_length};
ghost use Rattle.topology.specs.Trees.{points_of};

use super::Tree;
use crate::numbers::{Choice, Numbers};
use points::{Class, Point};

impl Tree {
    // The points, in the order of their numbers.
    pub fn points(&self) -> &[Point]
        ensures { result.now ≡ points_of self.now }
    {
        self.table.points()
    }

    pub fn point_count(&self) -> usize
        ensures { result ≡ length (points_of self.now) }
    {
        self.points().len()
    }

    // The class of a point; nothing where no point has the number.
    pub fn class(&self, point: usize) -> Option<Class>
        ensures { result ≡ class_at (points_of self.now) point }
    {
        self.table.point_at(point).map(|q| q.class)
    }

    // The parent of a point; nothing where no point has the number.
    pub fn parent(&self, point: usize) -> Option<usize>
        ensures { result ≡ parent_at (points_of self.now) point }
    {
        self.table.point_at(point).map(|q| q.parent)
    }

    // The members of a network, which is 0 for the main one, else its monitor, in point order.
    pub fn members(&self, network: usize) -> Numbers<'_>
        ensures { numbers_left result ≡ members_of (points_of self.now) network }
    {
        Numbers::new(&self.table, Choice::MembersOf(network))
    }

    // The networks in their order: 0 for the main one, then the monitors.
    pub fn networks(&self) -> Numbers<'_>
        ensures { numbers_left result ≡ networks_of (points_of self.now) }
    {
        Numbers::new(&self.table, Choice::Networks)
    }

    // How many networks the path of a member has; nothing where the number is no member's.
    pub fn path_len(&self, member: usize) -> Option<usize>
        ensures value { result ≡ path_length (points_of self.now) member }
        ensures rule { DepthRule (points_of self.now) }
    {
        self.table
            .point_at(member)
            .filter(|q| q.class.is_member())
            .map(|q| self.table.depth(q.parent))
    }

    // Whether following parents from the point leads to the monitor.
    pub fn is_beneath(&self, point: usize, monitor: usize) -> bool
        ensures { IsTrue result ↔ (BeneathMonitor (points_of self.now) monitor point) }
    {
        self.table.is_monitor(monitor) && self.table.leads_to(point, monitor)
    }
}
