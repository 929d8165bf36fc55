// SHIFT: a party's part, moved with the masks of the wires.
ghost use Rattle.std.specs.Prelude.{◌≡◌, ℕ, ◌<◌, ◌≤◌, length, OnErr};
ghost use Rattle.refusals.specs.Tests.{Tested};
ghost use Rattle.groups.specs.Group.{sub};
ghost use Rattle.model.specs.Words.{at, each, Below};
ghost use Rattle.model.specs.Net.{wires};
ghost use Rattle.model.specs.Deal.{columns, cell};
ghost use Rattle.model.specs.Shifted.{moved_masks, shifted_share, shifted_part};
ghost use Rattle.circuits.specs.Circuits.{net};
ghost use Rattle.circuits.specs.Looked.{lookup_of};
ghost use Rattle.dealer.specs.Looks.{Within, masked_at};
ghost use Rattle.dealer.specs.Shifts.{shift_fault, Shiftable};

use crate::cells::{MaskedTable, WritesCells};
use crate::changes::change_each;
use crate::lengths::{cell_count, column_count, part_length};
use crate::masked::Masked;
use crate::own::copy_own;
use circuits::{Circuit, Lookup, Over};
use groups::codes::are_codes;
use groups::masks::MaskGroup;
use refusals::Refusal;

// What SHIFT asks, before anything is written: the like of what PART asks, of other lists.
fn test<'a, G: MaskGroup>(
    group: &'a G,
    circuit: &'a Circuit<'a>,
    party: u8,
    masks: &[u8],
    differences: &[u8],
    part: &[u8],
    places: usize,
) -> Result<Over<'a, G>, Refusal>
    ensures { Tested (shift_fault (G.means group.now) (net circuit.now) party masks.now differences.now part.now places) result (λ o. (o.group.now ≡ group.now) × (o.circuit.now ≡ circuit.now) × Shiftable (G.means group.now) (net circuit.now) party masks.now differences.now part.now places) }
{
    let over = Over::new(group, circuit)?;
    let length = part_length(circuit, party)?;
    let wires = circuit.wire_count();
    if masks.len() != wires
        || differences.len() != wires
        || part.len() != length
        || places != length
    {
        return Err(Refusal::Length);
    }
    let size = circuit.size();
    if !are_codes(masks, size) || !are_codes(differences, size) || !are_codes(part, size) {
        return Err(Refusal::NotCode);
    }
    Ok(over)
}

// The masks of all wires, and the differences by which they move: two lists, since the caller of SHIFT lends them so.
#[derive(Drop)]
struct Moving<'a, G: MaskGroup> {
    was: Masked<'a, G>,
    differences: &'a [u8],
    ghost whole: { length differences.now ≡ wires (net was.over.now.circuit.now) },
    ghost codes: { Below (net was.over.now.circuit.now).size differences.now },
}

impl<'a, G: MaskGroup> Moving<'a, G> {
    // The moved mask of a wire.
    fn mask(&self, wire: usize) -> u8
        requires { wire < wires (net self.now.was.over.now.circuit.now) }
        ensures is { result ≡ at (moved_masks (G.means self.now.was.over.now.group.now) self.now.was.masks.now self.now.differences.now) wire }
        ensures code { result < (net self.now.was.over.now.circuit.now).size }
    {
        self.was
            .over
            .group
            .add(self.was.masks[wire], self.differences[wire])
    }

    // The table of a LOOK gate under the moved masks: as `Masked::table`, which reads each mask where this adds it up. One function
    // for both would be longer than the two.
    fn table(&self, look: &Lookup) -> MaskedTable<'a, G>
        requires { Within (net self.now.was.over.now.circuit.now) (lookup_of look.now) }
        ensures group { result.group.now ≡ self.now.was.over.now.group.now }
        ensures cells { let group = G.means self.now.was.over.now.group.now in let circuit = net self.now.was.over.now.circuit.now in (j : ℕ) → j < circuit.size → masked_at group result.table.now result.operand result.mask j ≡ cell group circuit (moved_masks group self.now.was.masks.now self.now.differences.now) (lookup_of look.now) j }
    {
        let operand = self.mask(usize::from(look.operand));
        MaskedTable::new(self.was.over, look, operand, self.mask(look.wire))
    }

    // Shifts the shares of the output masks.
    fn shift_outputs(&self, places: &mut [u8])
        requires { length places.old ≡ length (net self.now.was.over.now.circuit.now).outputs }
        ensures { let group = G.means self.now.was.over.now.group.now in let outputs = (net self.now.was.over.now.circuit.now).outputs in let masks = self.now.was.masks.now in let moved = moved_masks group masks self.now.differences.now in places.new ≡ each (length outputs) (λ i. group.add (at places.old i) (sub group (at moved (at outputs i)) (at masks (at outputs i)))) }
    {
        let group = self.was.over.group;
        // By the place's number: nothing is known of what a loop over `places.iter_mut().zip(..)` wrote.
        for (i, wire) in self.was.over.circuit.outputs().iter().enumerate() {
            let wire = usize::from(*wire);
            let gain = group.subtract(self.mask(wire), self.was.masks[wire]);
            places[i] = group.add(places[i], gain);
        }
    }

    // Writes the shifted block, `shares` being the block.
    fn shift_block(&self, shares: &[u8], block: &mut [u8])
        requires shares { length shares.now ≡ columns (net self.now.was.over.now.circuit.now) }
        requires places { length block.old ≡ columns (net self.now.was.over.now.circuit.now) }
        ensures { let circuit = net self.now.was.over.now.circuit.now in block.new ≡ each (columns circuit) (λ k. shifted_share (G.means self.now.was.over.now.group.now) circuit self.now.was.masks.now self.now.differences.now (at shares.now k) k) }
    {
        block.copy_from_slice(shares);
        self.write_all_cells(block);
        self.shift_outputs(&mut block[cell_count(self.was.over.circuit)..]);
    }
}

impl<G: MaskGroup> WritesCells for Moving<'_, G> {
    ghost parts = { λ s. net s.was.over.now.circuit.now };

    ghost becomes = { λ s k j was. let group = G.means s.was.over.now.group.now in let circuit = net s.was.over.now.circuit.now in let masks = s.was.masks.now in group.add was (sub group (cell group circuit (moved_masks group masks s.differences.now) k j) (cell group circuit masks k j)) };

    fn circuit(&self) -> &Circuit<'_> {
        self.was.over.circuit
    }

    // Shifts the cells: each gains what the table masked by the moved masks has there, less what the table masked by the
    // masks has.
    fn write_cells(&self, look: &Lookup, cells: &mut [u8]) {
        let group = self.was.over.group;
        let was = self.was.table(look);
        let is = self.table(look);
        for (j, cell) in cells.iter_mut().enumerate() {
            let gain = group.subtract(is.cell(j as u8), was.cell(j as u8));
            *cell = group.add(*cell, gain);
        }
    }
}

// Writes the shifted part: the own masks with the own differences added, then the shifted block.
fn write_shifted<'a, G: MaskGroup>(
    over: &'a Over<'a, G>,
    party: u8,
    masks: &'a [u8],
    differences: &'a [u8],
    part: &[u8],
    shifted: &mut [u8],
)
    requires { Shiftable (G.means over.now.group.now) (net over.now.circuit.now) party masks.now differences.now part.now (length shifted.old) }
    ensures { shifted.new ≡ shifted_part (G.means over.now.group.now) (net over.now.circuit.now) party masks.now differences.now part.now }
{
    let own = part.len() - column_count(over.circuit);
    copy_own(over.circuit.owners(), differences, party, shifted);
    change_each(&mut shifted[..own], part, |difference, mask| {
        over.group.add(mask, difference)
    });
    let was = Masked { over, masks };
    let moving = Moving { was, differences };
    moving.shift_block(&part[own..], &mut shifted[own..]);
}

/// SHIFT: the part of `party` after the mask of each wire has moved by its difference, all other parts being kept.
///
/// Refuses with `Counts` if the group's size is not the circuit's, `Party` if there is no such party, `Length` if there is
/// not a mask and a difference for each wire or if the part or the buffer is not of a part's length, `NotCode` if a mask, a
/// difference or a number of the part is no code, in this order, and then leaves the buffer as it was. It needs no room
/// beside it, and takes steps in proportion to the number of wires and the length of a part.
pub fn shift_part<G: MaskGroup>(
    group: &G,
    circuit: &Circuit<'_>,
    party: u8,
    masks: &[u8],
    differences: &[u8],
    part: &[u8],
    shifted: &mut [u8],
) -> Result<(), Refusal>
    ensures tested { Tested (shift_fault (G.means group.now) (net circuit.now) party masks.now differences.now part.now (length shifted.old)) result (λ _. shifted.new ≡ shifted_part (G.means group.now) (net circuit.now) party masks.now differences.now part.now) }
    ensures kept { OnErr result (shifted.new ≡ shifted.old) }
{
    let places = shifted.len();
    let over = test(group, circuit, party, masks, differences, part, places)?;
    write_shifted(&over, party, masks, differences, part, shifted);
    Ok(())
}
