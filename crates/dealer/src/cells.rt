// The cells of LOOK gates, which stand one after another at the front of a block.
ghost use Rattle.std.specs.Prelude.{◌≡◌, ℕ, ◌*◌, ◌/◌, ◌%◌, ◌<◌, ◌≤◌, length, take, drop};
ghost use Rattle.model.specs.Words.{at, each};
ghost use Rattle.model.specs.Net.{Net, Lookup as NetLookup, table_count, lookup_at};
ghost use Rattle.model.specs.Deal.{cells};
ghost use Rattle.circuits.specs.Circuits.{net};
ghost use Rattle.circuits.specs.Looked.{lookup_of};
ghost use Rattle.dealer.specs.Looks.{Within, masked_at};

use circuits::{Circuit, Lookup, Over};
use groups::masks::MaskGroup;

// What writes a number to each cell of a LOOK gate.
pub(crate) trait WritesCells {
    // The circuit in numbers.
    ghost parts: { Self → Net };

    // What cell `j` of a LOOK gate becomes, from what it was.
    ghost becomes: { Self → NetLookup → ℕ → ℕ → ℕ };

    // The circuit.
    fn circuit(&self) -> &Circuit<'_>
        ensures { net result.now ≡ parts self.now };

    // Writes the cells of one LOOK gate.
    fn write_cells(&self, look: &Lookup, cells: &mut [u8])
        requires look { Within (parts self.now) (lookup_of look.now) }
        requires places { length cells.old ≡ (parts self.now).size }
        ensures { cells.new ≡ each (parts self.now).size (λ j. becomes self.now (lookup_of look.now) j (at cells.old j)) };

    // Writes the cells of every LOOK gate, which stand one after another, and leaves what follows them.
    fn write_all_cells(&self, block: &mut [u8])
        requires { cells (parts self.now) ≤ length block.old }
        ensures done { (k : ℕ) → k < cells (parts self.now) → at block.new k ≡ becomes self.now (lookup_at (parts self.now) (k / (parts self.now).size)) (k % (parts self.now).size) (at block.old k) }
        ensures left { (k : ℕ) → cells (parts self.now) ≤ k → at block.new k ≡ at block.old k }
    {
        let circuit = self.circuit();
        let size = usize::from(circuit.size());
        // By the gate's number: nothing is known of what a loop over `block.chunks_exact_mut(size).zip(..)` wrote.
        for (l, look) in circuit.lookups().enumerate() {
            let start = l * size;
            self.write_cells(&look, &mut block[start..start + size]);
        }
    }
}

// A table of a code for each code of a group, with the mask of the operand and that of the wire that is written.
#[derive(Drop)]
pub(crate) struct MaskedTable<'a, G: MaskGroup> {
    group: &'a G,
    table: &'a [u8],
    operand: u8,
    mask: u8,
    ghost whole: { length table.now ≡ (G.means group.now).size },
    ghost code: { operand < (G.means group.now).size },
}

impl<'a, G: MaskGroup> MaskedTable<'a, G> {
    // The table of `look` under these two masks.
    pub(crate) fn new(over: &'a Over<'a, G>, look: &Lookup, operand: u8, mask: u8) -> Self
        requires table { look.now.table < table_count (net over.now.circuit.now) }
        requires operand { operand < (net over.now.circuit.now).size }
        ensures group { result.group.now ≡ over.now.group.now }
        ensures table { result.table.now ≡ take (net over.now.circuit.now).size (drop (look.now.table * (net over.now.circuit.now).size) (net over.now.circuit.now).tables) }
        ensures operand { result.operand ≡ operand }
        ensures mask { result.mask ≡ mask }
    {
        MaskedTable {
            group: over.group,
            table: over.circuit.table(look.table),
            operand,
            mask,
        }
    }

    // What the masked table has at `j`: what the table has at `j` less the operand's mask, plus the mask of the wire.
    pub(crate) fn cell(&self, j: u8) -> u8
        requires { j < (G.means self.now.group.now).size }
        ensures { result ≡ masked_at (G.means self.now.group.now) self.now.table.now self.now.operand self.now.mask j }
    {
        let place = self.group.subtract(j, self.operand);
        self.group.add(self.table[usize::from(place)], self.mask)
    }
}
