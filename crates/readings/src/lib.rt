// Sources of five-minute readings, corrections, and the integration of an hour.
#![tactic(auto)]

mod hours;
mod piles;
mod profiles;
mod sources;

pub use hours::{hour_value, integrate_hour};
pub use piles::Pile;
pub use profiles::Profile;
pub use sources::{Correctable, INTERVAL_LIMIT, Source};
