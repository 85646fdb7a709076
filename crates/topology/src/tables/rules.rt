// The tests that a point has to pass, and those of a table that is to go into service.
ghost use Rattle.std.specs.Prelude.{◌≡◌, length, MatchOption};
ghost use Rattle.points.specs.Rules.{Complete, has_room, parent_fits};
ghost use Rattle.topology.specs.Service.{FirstUnready};
ghost use Rattle.topology.specs.Tables.{listed};

use super::Table;
use points::Class;

// The limits of a tree: roots, members of one network, networks with the main one, and how deep a
// network may lie, where the main one has depth 1.
const ROOT_LIMIT: usize = 4;

const MEMBER_LIMIT: usize = 32;

const NETWORK_LIMIT: usize = 16;

const DEPTH_LIMIT: usize = 4;

impl Table {
    // Whether the next point may be of this class and name this parent.
    pub(crate) fn parent_fits(&self, class: Class, parent: usize) -> bool
        ensures { result ≡ parent_fits (listed self.now) (length (listed self.now)) class parent }
    {
        match class {
            Class::Root => parent == 0,
            Class::Member | Class::Monitor => self.is_network(parent),
            Class::Embedded => self
                .point_at(parent)
                .is_some_and(|named| named.class.hosts()),
        }
    }

    // Whether the limits leave room for a point of this class under this parent.
    pub(crate) fn has_room(&self, class: Class, parent: usize) -> bool
        ensures { result ≡ has_room (listed self.now) class parent }
    {
        match class {
            Class::Root => self.roots() < ROOT_LIMIT,
            Class::Member => self.members(parent) < MEMBER_LIMIT,
            Class::Monitor => {
                self.members(parent) < MEMBER_LIMIT
                    && self.networks() < NETWORK_LIMIT
                    && self.depth(parent) < DEPTH_LIMIT
            }
            Class::Embedded => true,
        }
    }

    // The first network that lacks a member, or the main one where there is no root.
    pub(crate) fn first_unready(&self) -> Option<usize>
        ensures { MatchOption result (Complete (listed self.now)) (FirstUnready (listed self.now)) }
    {
        if self.roots() == 0 {
            return Some(0);
        }
        (0..self.points().len() + 1).find(|m| self.is_network(*m) && self.is_memberless(*m))
    }
}
