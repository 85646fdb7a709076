// What the rules, the limits and the questions look at.
ghost use Rattle.std.specs.Prelude.{◌≡◌, ◌↔◌, ◌==◌, IsTrue};
ghost use Rattle.points.specs.Classes.{is_monitor};
ghost use Rattle.points.specs.Points.{Beneath, class_of, depth, is_network, members, networks, parent_of, point_at, roots};
ghost use Rattle.topology.specs.Tables.{listed};

use super::Table;
use points::Point;

impl Table {
    // Point p, if there is one.
    pub(crate) fn point_at(&self, p: usize) -> Option<Point>
        ensures { result ≡ point_at (listed self.now) p }
    {
        self.points().get(p.wrapping_sub(1)).copied()
    }

    // Whether point p monitors a network.
    pub(crate) fn is_monitor(&self, p: usize) -> bool
        ensures { result ≡ is_monitor (class_of (listed self.now) p) }
    {
        self.point_at(p).is_some_and(|q| q.class.is_monitor())
    }

    // Whether m is a network: 0 is the main one, any other has the number of its monitor.
    pub(crate) fn is_network(&self, m: usize) -> bool
        ensures { result ≡ is_network (listed self.now) m }
    {
        m == 0 || self.is_monitor(m)
    }

    pub(crate) fn roots(&self) -> usize
        ensures { result ≡ roots (listed self.now) }
    {
        self.points().iter().filter(|q| q.class.is_root()).count()
    }

    // How many members a network has.
    pub(crate) fn members(&self, network: usize) -> usize
        ensures { result ≡ members (listed self.now) network }
    {
        self.points()
            .iter()
            .filter(|q| q.is_member_of(network))
            .count()
    }

    // Whether a network has no member. It looks no further than the first one.
    pub(crate) fn is_memberless(&self, m: usize) -> bool
        ensures { result ≡ (members (listed self.now) m == 0) }
    {
        !self.points().iter().any(|q| q.is_member_of(m))
    }

    // How many networks there are, with the main one.
    pub(crate) fn networks(&self) -> usize
        ensures { result ≡ networks (listed self.now) }
    {
        1 + self
            .points()
            .iter()
            .filter(|q| q.class.is_monitor())
            .count()
    }

    // The depth of a network, counted on the way up to the main one. This and the next are loops: a chain would need an
    // iterator of its own here, longer than both, since the library takes its `successors` for endless. No plainer. A number
    // that no point has reads as one that names 0.
    pub(crate) fn depth(&self, network: usize) -> usize
        ensures { result ≡ depth (listed self.now) network }
    {
        let mut steps = 1;
        let mut at = network;
        while at > 0 {
            let Some(q) = self.point_at(at) else {
                return steps + 1;
            };
            at = q.parent;
            steps += 1;
        }
        steps
    }

    // Whether the parents of a point, one above the other, come to the point `above`.
    pub(crate) fn leads_to(&self, point: usize, above: usize) -> bool
        ensures { IsTrue result ↔ (Beneath (listed self.now) above point) }
    {
        let mut at = point;
        loop {
            let Some(q) = self.point_at(at) else {
                return above == 0;
            };
            at = q.parent;
            if at == above {
                return true;
            }
        }
    }
}
