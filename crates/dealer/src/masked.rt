// The masks of all wires of a circuit over a group, and what shares lack of what is owed under them.
ghost use Rattle.std.specs.Prelude.{◌≡◌, ℕ, ◌<◌, length};
ghost use Rattle.groups.specs.Group.{sub};
ghost use Rattle.model.specs.Words.{at, each, Below};
ghost use Rattle.model.specs.Net.{wires};
ghost use Rattle.model.specs.Deal.{columns, cell, owed};
ghost use Rattle.circuits.specs.Circuits.{net};
ghost use Rattle.circuits.specs.Looked.{lookup_of};
ghost use Rattle.dealer.specs.Looks.{Within, masked_at};

use crate::cells::{MaskedTable, WritesCells};
use crate::lengths::cell_count;
use circuits::{Circuit, Lookup, Over};
use groups::masks::MaskGroup;

// A circuit over a group with a mask for each wire.
#[derive(Drop)]
pub(crate) struct Masked<'a, G: MaskGroup> {
    pub over: &'a Over<'a, G>,
    pub masks: &'a [u8],
    ghost whole: { length masks.now ≡ wires (net over.now.circuit.now) },
    ghost codes: { Below (net over.now.circuit.now).size masks.now },
}

impl<'a, G: MaskGroup> Masked<'a, G> {
    // The masked table of a LOOK gate.
    pub(crate) fn table(&self, look: &Lookup) -> MaskedTable<'a, G>
        requires { Within (net self.now.over.now.circuit.now) (lookup_of look.now) }
        ensures group { result.group.now ≡ self.now.over.now.group.now }
        ensures cells { let group = G.means self.now.over.now.group.now in let circuit = net self.now.over.now.circuit.now in (j : ℕ) → j < circuit.size → masked_at group result.table.now result.operand result.mask j ≡ cell group circuit self.now.masks.now (lookup_of look.now) j }
    {
        let operand = self.masks[usize::from(look.operand)];
        MaskedTable::new(self.over, look, operand, self.masks[look.wire])
    }

    // Takes the sum that stands in each place of a block from what the shares of its column come to.
    pub(crate) fn write_lacking(&self, block: &mut [u8])
        requires places { length block.old ≡ columns (net self.now.over.now.circuit.now) }
        ensures { let group = G.means self.now.over.now.group.now in let circuit = net self.now.over.now.circuit.now in block.new ≡ each (columns circuit) (λ k. sub group (at (owed group circuit self.now.masks.now) k) (at block.old k)) }
    {
        self.write_all_cells(block);
        self.write_lacking_outputs(&mut block[cell_count(self.over.circuit)..]);
    }

    // The same for the outputs, whose shares come to their masks.
    fn write_lacking_outputs(&self, places: &mut [u8])
        requires { length places.old ≡ length (net self.now.over.now.circuit.now).outputs }
        ensures { let group = G.means self.now.over.now.group.now in let outputs = (net self.now.over.now.circuit.now).outputs in places.new ≡ each (length outputs) (λ i. sub group (at self.now.masks.now (at outputs i)) (at places.old i)) }
    {
        // By the place's number: nothing is known of what a loop over `places.iter_mut().zip(..)` wrote.
        for (i, wire) in self.over.circuit.outputs().iter().enumerate() {
            let mask = self.masks[usize::from(*wire)];
            places[i] = self.over.group.subtract(mask, places[i]);
        }
    }
}

impl<G: MaskGroup> WritesCells for Masked<'_, G> {
    ghost parts = { λ s. net s.over.now.circuit.now };

    ghost becomes = { λ s k j was. let group = G.means s.over.now.group.now in sub group (cell group (net s.over.now.circuit.now) s.masks.now k j) was };

    fn circuit(&self) -> &Circuit<'_> {
        self.over.circuit
    }

    // Takes the sum that stands in each cell from what the masked table has there.
    fn write_cells(&self, look: &Lookup, cells: &mut [u8]) {
        let table = self.table(look);
        for (j, cell) in cells.iter_mut().enumerate() {
            *cell = self.over.group.subtract(table.cell(j as u8), *cell);
        }
    }
}
