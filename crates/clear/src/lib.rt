//! A circuit in the clear: the value of every wire, with no masks.

#![tactic(auto)]

mod gates;
mod run;

pub use run::evaluate;
