// The points of a metering tree and their classes. What is said of a list of points, and the rules
// that it keeps, stands in specs/, with laws on it in proofs/.
#![tactic(auto)]

mod classes;

pub use classes::{Class, NoClass, Point};
