// The run of an hour: losses found network by network and divided among the members.
#![tactic(auto)]

mod carry;
mod hours;
mod networks;
mod rules;
mod sums;

pub use rules::{Charges, FlowReading, LossRule, SignReading};
pub use sums::NetworkSums;
