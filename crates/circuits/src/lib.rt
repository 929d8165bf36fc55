//! Circuits as they are held: lent sections, what every circuit keeps, and what flows along the wires.

#![tactic(auto)]

mod circuit;
mod counts;
mod lookups;
mod making;
mod over;
mod parts;
mod rules;

pub use circuit::Circuit;
pub use lookups::{Lookup, Lookups};
pub use over::Over;
pub use rules::Rules;
