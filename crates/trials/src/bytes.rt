// Circuit files, byte for byte, and what READ answers of them.
use files::{Gate, read};
use refusals::Refusal;
use std::alloc::{AllocError, Global};

// The example circuit: the square of the sum of two digits.
pub const SQUARES: [u8; 78] = [
    10, 0, 2, 0, 2, 0, 2, 0, 1, 0, 0, 0, 1, 0, 54, 0, 0, 0, 2, 0, 0, 0, 56, 0, 0, 0, 10, 0, 0, 0,
    66, 0, 0, 0, 0, 0, 0, 0, 66, 0, 0, 0, 10, 0, 0, 0, 76, 0, 0, 0, 2, 0, 0, 0, 0, 1, 0, 1, 4, 9,
    6, 5, 6, 9, 4, 1, 0, 0, 0, 1, 0, 3, 2, 0, 0, 0, 3, 0,
];

// All four kinds of gate, a table, a row and two outputs, with a byte of 238 in every gap.
pub const ALL_KINDS: [u8; 104] = [
    10, 0, 2, 0, 2, 0, 4, 0, 1, 0, 1, 0, 2, 0, 55, 0, 0, 0, 2, 0, 0, 0, 58, 0, 0, 0, 10, 0, 0, 0,
    69, 0, 0, 0, 8, 0, 0, 0, 78, 0, 0, 0, 20, 0, 0, 0, 99, 0, 0, 0, 4, 0, 0, 0, 238, 0, 1, 238, 0,
    1, 4, 9, 6, 5, 6, 9, 4, 1, 238, 9, 8, 7, 6, 5, 4, 3, 2, 238, 0, 0, 0, 1, 0, 1, 2, 0, 7, 0, 2,
    3, 0, 0, 0, 3, 4, 0, 0, 0, 238, 5, 0, 2, 0, 238,
];

// What READ answers of a file that has at most four gates and two outputs.
pub fn answer(file: &[u8]) -> Result<(), Refusal> {
    let mut gates = [Gate::default(); 4];
    let mut outputs = [0; 2];
    read(file, &mut gates, &mut outputs).map(|_| ())
}

// The same of ALL_KINDS with one byte changed.
pub fn changed(at: usize, byte: u8) -> Result<(), Refusal> {
    let mut file = ALL_KINDS;
    if at < file.len() {
        file[at] = byte;
    }
    answer(&file)
}

// A circuit file with no gaps, from its counts and the bytes of its sections.
pub fn circuit_file(
    heap: Global,
    counts: [u16; 7],
    sections: [&[u8]; 5],
) -> Result<Vec<u8>, AllocError> {
    let mut file = Vec::new(heap);
    for count in counts {
        file.extend_from_slice(&count.to_le_bytes())?;
    }
    // A sum that runs along: each section begins where the one before it ends.
    let mut offset = 54u32;
    for section in &sections {
        let length = (section.len() % 65536) as u32;
        file.extend_from_slice(&offset.to_le_bytes())?;
        file.extend_from_slice(&length.to_le_bytes())?;
        offset = offset.wrapping_add(length);
    }
    for section in &sections {
        file.extend_from_slice(section)?;
    }
    Ok(file)
}
