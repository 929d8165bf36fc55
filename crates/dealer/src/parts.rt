// PART: the masks of all wires, and the part of one party.
ghost use Rattle.std.specs.Prelude.{◌≡◌, length, OnErr};
ghost use Rattle.refusals.specs.Tests.{Tested};
ghost use Rattle.model.specs.Net.{wires};
ghost use Rattle.model.specs.Deal.{Lawful, masks as masks_of, part as part_of};
ghost use Rattle.model.specs.Tape.{tape_length, deal_of};
ghost use Rattle.circuits.specs.Circuits.{net};
ghost use Rattle.dealer.specs.Parts.{Ready, part_fault};

use crate::lengths::{column_count, part_length, tape_length};
use crate::masked::Masked;
use crate::masks::Masking;
use crate::own::copy_own;
use circuits::{Circuit, Over};
use groups::codes::are_codes;
use groups::masks::MaskGroup;
use refusals::Refusal;

// What PART asks, before anything is written. `clear` and SHIFT ask the like of other lists: what is the same is in `Over::new`,
// `part_length` and `are_codes`.
fn test<'a, G: MaskGroup>(
    group: &'a G,
    circuit: &'a Circuit<'a>,
    tape: &[u8],
    party: u8,
    mask_places: usize,
    part_places: usize,
) -> Result<Over<'a, G>, Refusal>
    ensures { Tested (part_fault (G.means group.now) (net circuit.now) tape.now party mask_places part_places) result (λ o. (o.group.now ≡ group.now) × (o.circuit.now ≡ circuit.now) × Ready (G.means group.now) (net circuit.now) tape.now party mask_places part_places) }
{
    let over = Over::new(group, circuit)?;
    let length = part_length(circuit, party)?;
    if tape.len() != tape_length(circuit)
        || mask_places != circuit.wire_count()
        || part_places != length
    {
        return Err(Refusal::Length);
    }
    if !are_codes(tape, circuit.size()) {
        return Err(Refusal::NotCode);
    }
    Ok(over)
}

// Writes the masks of all wires.
fn write_masks<G: MaskGroup>(over: &Over<'_, G>, tape: &[u8], masks: &mut [u8])
    requires tape { length tape.now ≡ tape_length (net over.now.circuit.now) }
    requires places { length masks.old ≡ wires (net over.now.circuit.now) }
    ensures { masks.new ≡ masks_of (G.means over.now.group.now) (net over.now.circuit.now) (deal_of (G.means over.now.group.now) (net over.now.circuit.now) tape.now) }
{
    let inputs = over.circuit.input_count();
    let end = inputs + usize::from(over.circuit.look_count());
    masks[..inputs].copy_from_slice(&tape[..inputs]);
    let looks = &tape[inputs..end];
    over.flow(&Masking { looks }, masks);
}

// Writes the part of `party`: the masks of its own inputs, then its block. Party and buffer are what is left to hand on beside `Over`.
fn write_part<'a, G: MaskGroup>(
    over: &'a Over<'a, G>,
    tape: &[u8],
    party: u8,
    masks: &'a [u8],
    part: &mut [u8],
)
    requires ready { Ready (G.means over.now.group.now) (net over.now.circuit.now) tape.now party (length masks.now) (length part.old) }
    requires masks { masks.now ≡ masks_of (G.means over.now.group.now) (net over.now.circuit.now) (deal_of (G.means over.now.group.now) (net over.now.circuit.now) tape.now) }
    ensures { part.new ≡ part_of (net over.now.circuit.now) party (deal_of (G.means over.now.group.now) (net over.now.circuit.now) tape.now) }
{
    let circuit = over.circuit;
    let inputs = circuit.input_count();
    copy_own(circuit.owners(), &masks[..inputs], party, part);
    let own = part.len() - column_count(circuit);
    let dealt = &tape[inputs + usize::from(circuit.look_count())..];
    let masked = Masked { over, masks };
    masked.write_block(dealt, party, &mut part[own..]);
}

/// PART: from a tape, the mask of every wire and the part of `party`, whose deal is lawful.
///
/// Refuses with `Counts` if the group's size is not the circuit's, `Party` if there is no such party, `Length` if the tape
/// or one of the buffers is of the wrong length, `NotCode` if a number of the tape is no code, in this order, and then
/// leaves both buffers as they were. It needs no room beside them, reads each number of the tape once after the tests, and
/// takes steps in proportion to the length of a tape and the number of wires.
pub fn deal_part<G: MaskGroup>(
    group: &G,
    circuit: &Circuit<'_>,
    tape: &[u8],
    party: u8,
    masks: &mut [u8],
    part: &mut [u8],
) -> Result<(), Refusal>
    ensures tested { Tested (part_fault (G.means group.now) (net circuit.now) tape.now party (length masks.old) (length part.old)) result (λ _. (masks.new ≡ masks_of (G.means group.now) (net circuit.now) (deal_of (G.means group.now) (net circuit.now) tape.now)) × (part.new ≡ part_of (net circuit.now) party (deal_of (G.means group.now) (net circuit.now) tape.now)) × Lawful (G.means group.now) (net circuit.now) (deal_of (G.means group.now) (net circuit.now) tape.now)) }
    ensures kept { OnErr result ((masks.new ≡ masks.old) × (part.new ≡ part.old)) }
{
    let over = test(group, circuit, tape, party, masks.len(), part.len())?;
    write_masks(&over, tape, masks);
    write_part(&over, tape, party, masks, part);
    Ok(())
}
