// Loss rules: on which channel the loss of a network is charged.
ghost use Rattle.std.specs.Prelude.{◌≡◌, pos};
ghost use Rattle.shares.specs.Rules.{flow_reading, Meaning, Rule, sign_reading};
ghost use Rattle.losses.specs.Charging.{all_on, Charged};
ghost use Rattle.shares.proofs.Rules.{flow, sign};

use crate::sums::NetworkSums;
use terms::{Amount, AmountC, AmountG, Channel};

// What a network is charged on each channel.
#[derive(Clone, Copy)]
pub struct Charges {
    pub c: AmountC,
    pub g: AmountG,
}

// A loss rule charges the loss of a network, or its absolute value, on one channel, and nothing on the other.
pub trait LossRule {
    // The charges on C and on G, by the monitors' C and G and the members' C and G.
    ghost rule: { Self → Rule };

    fn charges(&self, sums: NetworkSums) -> Charges
        ensures { Charged (rule self.now) sums result };

    ghost meaning: { (s : Self) → Meaning (rule s) };
}

impl Charges {
    // All of a charge on one channel.
    fn on(channel: Channel, wh: i64) -> Charges
        ensures c { result.c.0 ≡ (all_on channel wh).0 }
        ensures g { result.g.0 ≡ (all_on channel wh).1 }
    {
        match channel {
            Channel::C => Charges {
                c: AmountC::from_wh(wh),
                g: AmountG::from_wh(0),
            },
            Channel::G => Charges {
                c: AmountC::from_wh(0),
                g: AmountG::from_wh(wh),
            },
        }
    }
}

// The loss, with its sign, on C if the monitors' C is at least their G, else on G (command 12).
#[derive(Clone, Copy)]
pub struct FlowReading;

impl LossRule for FlowReading {
    ghost rule = { λ _. flow_reading };

    ghost meaning = { λ s. flow };

    fn charges(&self, sums: NetworkSums) -> Charges {
        let loss = sums.loss();
        if sums.monitors_c - sums.monitors_g >= 0 {
            Charges::on(Channel::C, loss)
        } else {
            Charges::on(Channel::G, loss)
        }
    }
}

// The loss on C if it is at least 0, else its absolute value on G (command 13).
#[derive(Clone, Copy)]
pub struct SignReading;

impl LossRule for SignReading {
    ghost rule = { λ _. sign_reading };

    ghost meaning = { λ s. sign };

    fn charges(&self, sums: NetworkSums) -> Charges {
        let loss = sums.loss();
        if loss >= 0 {
            Charges::on(Channel::C, loss)
        } else {
            Charges::on(Channel::G, -loss)
        }
    }
}
