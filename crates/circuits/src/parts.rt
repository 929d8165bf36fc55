// The sections of a circuit, as they are lent.
ghost use Rattle.std.specs.Prelude.{◌≡◌, ◌*◌, ◌<◌, ◌&&◌, length, take, drop, if◌then◌else◌, ◌==◌};
ghost use Rattle.files.specs.Gates.{gates_of};
ghost use Rattle.model.specs.Net.{wires as all_wires, row, row_count};
ghost use Rattle.model.specs.Clear.{outputs_of};
ghost use Rattle.circuits.specs.Circuits.{net};

use crate::circuit::Circuit;
use files::{Gate, front};

impl<'a> Circuit<'a> {
    /// The party that owns each input wire.
    pub fn owners(&self) -> &'a [u8]
        ensures { result.now ≡ (net self.now).owners }
    {
        self.owners
    }

    /// The tables one after another, `size` codes each.
    pub fn tables(&self) -> &'a [u8]
        ensures { result.now ≡ (net self.now).tables }
    {
        self.tables
    }

    /// The rows one after another, eight codes each.
    pub fn rows(&self) -> &'a [u8]
        ensures { result.now ≡ (net self.now).rows }
    {
        self.rows
    }

    /// The gates in the order in which they run.
    pub fn gates(&self) -> &'a [Gate]
        ensures is { result.now ≡ self.now.gates.now }
        ensures meant { gates_of result.now ≡ (net self.now).gates }
    {
        self.gates
    }

    /// The wires that are put out.
    pub fn outputs(&self) -> &'a [u16]
        ensures { result.now ≡ (net self.now).outputs }
    {
        self.outputs
    }

    // Row `r`.
    pub(crate) fn row(&self, r: u16) -> &'a [u8; 8]
        requires { r < row_count (net self.now) }
        ensures { result.now ≡ row (net self.now) r }
    {
        &self.rows.as_chunks::<8>().0[usize::from(r)]
    }

    /// Table `t`: `size` codes, or none where there is no such table.
    pub fn table(&self, t: u16) -> &'a [u8]
        ensures { result.now ≡ take (net self.now).size (drop (t * (net self.now).size) (net self.now).tables) }
    {
        let size = usize::from(self.size);
        let start = usize::from(t) * size;
        front(self.tables.get(start..).unwrap_or(&[]), size)
    }

    /// Writes to `places` what `wires` has at the wires that are put out. Where there is not a number for each wire and a
    /// place for each output, the places stay as they were.
    pub fn gather_outputs(&self, wires: &[u8], places: &mut [u8])
        ensures { places.new ≡ (if (length wires.now == all_wires (net self.now)) && (length places.old == length (net self.now).outputs) then outputs_of (net self.now) wires.now else places.old) }
    {
        if wires.len() != self.wire_count() || places.len() != self.output_count() {
            return;
        }
        // By the place's number: nothing is known of what a loop over `places.iter_mut().zip(..)` wrote.
        for (i, wire) in self.outputs.iter().enumerate() {
            places[i] = wires[usize::from(*wire)];
        }
    }
}
