// Circuit files made at random.
use crate::bytes::circuit_file;
use std::alloc::{AllocError, Global};

// A generator of numbers that look random and are the same in every run.
#[derive(Drop)]
pub struct Random(u32);

impl Random {
    pub fn new(start: u32) -> Random {
        Random(start | 1)
    }

    fn next(&mut self) -> u32 {
        let mut x = self.0;
        x ^= x.wrapping_shl(13);
        x ^= x >> 17;
        x ^= x.wrapping_shl(5);
        self.0 = x;
        x
    }

    // A number below n, and 0 where n is 0.
    pub fn below(&mut self, n: u16) -> u16 {
        let n = n.max(1);
        (self.next() / 8 % u32::from(n)) as u16
    }

    pub fn fill(&mut self, bytes: &mut [u8]) {
        for b in bytes.iter_mut() {
            *b = (self.next() / 8 % 256) as u8;
        }
    }

    // So many numbers below q.
    fn codes(&mut self, heap: Global, count: u16, q: u16) -> Result<Vec<u8>, AllocError> {
        let mut codes = Vec::new(heap);
        for _ in 0..count {
            codes.push((self.below(q) % 256) as u8)?;
        }
        Ok(codes)
    }
}

// A circuit of q codes and n parties, with up to four inputs and twelve gates, two tables, two rows and three outputs.
pub fn random_circuit(
    heap: Global,
    random: &mut Random,
    q: u16,
    n: u16,
) -> Result<Vec<u8>, AllocError> {
    let inputs = 1 + random.below(4) % 4;
    let gates = random.below(13) % 13;
    let size = q.min(256);
    let owners = random.codes(heap, inputs, n)?;
    let tables = random.codes(heap, 2 * size, size)?;
    let rows = random.codes(heap, 16, size)?;
    let mut entries = Vec::new(heap);
    for wire in inputs..inputs + gates {
        let kind = random.below(4);
        entries.push((kind % 4) as u8)?;
        entries.extend_from_slice(&random.below(wire).to_le_bytes())?;
        let limit = match kind {
            0 => wire,
            1 => size,
            _ => 2,
        };
        entries.extend_from_slice(&random.below(limit).to_le_bytes())?;
    }
    let mut outputs = Vec::new(heap);
    for _ in 0..3 {
        outputs.extend_from_slice(&random.below(inputs + gates).to_le_bytes())?;
    }
    circuit_file(
        heap,
        [size, n, inputs, gates, 2, 2, 3],
        [
            owners.as_slice(),
            tables.as_slice(),
            rows.as_slice(),
            entries.as_slice(),
            outputs.as_slice(),
        ],
    )
}
