// How much a circuit has of each part.
ghost use Rattle.std.specs.Prelude.{◌≡◌, ◌≤◌, length};
ghost use Rattle.model.specs.Net.{inputs, wires, table_count, row_count, look_count};
ghost use Rattle.circuits.specs.Circuits.{net};

use crate::circuit::Circuit;

impl Circuit<'_> {
    /// How many codes there are.
    pub fn size(&self) -> u16
        ensures is { result ≡ (net self.now).size }
        ensures within { (2 ≤ result) × (result ≤ 256) }
    {
        self.size
    }

    /// How many parties there are.
    pub fn parties(&self) -> u16
        ensures is { result ≡ (net self.now).parties }
        ensures within { (2 ≤ result) × (result ≤ 8) }
    {
        self.parties
    }

    /// How many of the gates are LOOK gates.
    pub fn look_count(&self) -> u16
        ensures is { result ≡ look_count (net self.now).gates }
        ensures within { result ≤ 240 }
    {
        self.looks
    }

    /// How many wires are inputs: the first ones.
    pub fn input_count(&self) -> usize
        ensures is { result ≡ inputs (net self.now) }
        ensures within { (1 ≤ result) × (result ≤ 160) }
    {
        self.owners.len()
    }

    /// How many gates there are, which is how many wires follow the inputs.
    pub fn gate_count(&self) -> usize
        ensures is { result ≡ length (net self.now).gates }
        ensures within { result ≤ 4096 }
    {
        self.gates.len()
    }

    /// How many wires there are.
    pub fn wire_count(&self) -> usize
        ensures is { result ≡ wires (net self.now) }
        ensures within { (1 ≤ result) × (result ≤ 4256) }
    {
        self.input_count() + self.gate_count()
    }

    /// How many wires are put out.
    pub fn output_count(&self) -> usize
        ensures is { result ≡ length (net self.now).outputs }
        ensures within { (1 ≤ result) × (result ≤ 64) }
    {
        self.outputs.len()
    }

    /// How many tables there are.
    pub fn table_count(&self) -> usize
        ensures is { result ≡ table_count (net self.now) }
        ensures within { result ≤ 16 }
    {
        self.tables.len() / usize::from(self.size)
    }

    /// How many rows there are.
    pub fn row_count(&self) -> usize
        ensures is { result ≡ row_count (net self.now) }
        ensures within { result ≤ 64 }
    {
        self.rows.len() / 8
    }
}
