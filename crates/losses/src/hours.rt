// The hour that a run goes over.
ghost use Rattle.std.specs.Prelude.{◌≡◌, ◌*◌, ◌≤◌, true, length};
ghost use Rattle.points.specs.Points.{is_network};
ghost use Rattle.points.specs.Rules.{Limited, Placed};
ghost use Rattle.losses.specs.Blocks.{Hourly};

use points::Point;

mod values;

// The points of a tree in service and their hour values, which stand point after point, C and then G: the caller's row of
// numbers, as the integration fills it, since a run takes no memory from the heap.
#[derive(Clone, Copy)]
pub(crate) struct MeteredHour<'a> {
    pub(crate) points: &'a [Point],
    pub(crate) values: &'a [i64],
    ghost placed: { Placed points.now },
    ghost limited: { Limited points.now },
    ghost paired: { length values.now ≡ 2 * length points.now },
    ghost hourly: { Hourly values.now },
}

// A network of such an hour. The main one has the number 0, each other the number of its monitor.
#[derive(Clone, Copy)]
pub(crate) struct Network<'a> {
    pub(crate) hour: MeteredHour<'a>,
    pub(crate) number: usize,
    ghost within: { number ≤ length hour.points.now },
    ghost network: { is_network hour.points.now number ≡ true },
}
