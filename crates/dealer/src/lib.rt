//! The dealer: masks on every wire, deals that tapes stand for, and each party's part of a deal.

#![tactic(auto)]

mod blocks;
mod cells;
mod changes;
mod filling;
mod lawful;
mod lengths;
mod masked;
mod masks;
mod own;
mod parts;
mod shares;
mod shifting;

pub use filling::fill;
pub use lawful::tapes_are_lawful_deals;
pub use lengths::{part_length, place_length, slot, tape_length};
pub use parts::deal_part;
pub use shifting::shift_part;
