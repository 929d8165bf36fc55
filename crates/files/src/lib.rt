//! The circuit file, and READ.

#![tactic(auto)]

mod contents;
mod counts;
mod directory;
mod entries;
mod fills;
mod gate;
mod gate_tests;
mod header;
mod list;
mod numbers;
mod pairs;
mod placed;
mod reader;
mod reading;
mod section;
mod sections;
mod slices;

pub use contents::{Contents, Survey};
pub use directory::Directory;
pub use gate::{Gate, Kind, UnknownKind};
pub use header::Header;
pub use reading::{read, survey};
pub use slices::{front, section_of};
