// The sums of a network that its loss is found by.
ghost use Rattle.losses.specs.Limits.{IsSum};

use terms::{AmountC, AmountG};

mod methods;

// What the monitors and the members of a network have in an hour on each channel: 0 to 5,760,000,000 Wh each,
// which is what 32 members have at most.
#[derive(Clone, Copy)]
pub struct NetworkSums {
    pub monitors_c: AmountC,
    pub monitors_g: AmountG,
    pub members_c: AmountC,
    pub members_g: AmountG,
    ghost mc: { IsSum monitors_c.0 },
    ghost mg: { IsSum monitors_g.0 },
    ghost sc: { IsSum members_c.0 },
    ghost sg: { IsSum members_g.0 },
}
