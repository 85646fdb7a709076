// What every layer shares: the channels and the amounts on them, figures in MWh, and the refusals,
// each with its number and its place.
#![tactic(auto)]

mod channels;
mod figures;
mod refusals;

pub use channels::{
    Amount, AmountC, AmountG, AmountOn, Channel, Consumption, Generation, OneChannel, Place,
};
pub use figures::Mwh;
pub use refusals::Refusal;
