// What is found in a circuit file.
use crate::directory::Directory;
use crate::header::Header;

/// The numbers of a file that passed every test: its counts, where its sections stand, and how many LOOK gates it has.
#[derive(Clone, Copy)]
pub struct Survey {
    pub header: Header,
    pub directory: Directory,
    pub looks: u16,
}

/// What READ answers beside the places that it fills: counts, LOOK gates, and three sections as parts of the file.
#[derive(Clone, Copy)]
pub struct Contents<'a> {
    pub header: Header,
    pub looks: u16,
    pub owners: &'a [u8],
    pub tables: &'a [u8],
    pub rows: &'a [u8],
}
