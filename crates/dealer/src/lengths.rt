// How long tapes, parts and places are, so that buffers can be made for them.
ghost use Rattle.std.specs.Prelude.{◌≡◌, ◌+◌, ◌*◌, ◌<◌, ◌≤◌, length, IfSome};
ghost use Rattle.refusals.specs.Tests.{Tested};
ghost use Rattle.model.specs.Deal.{cells, columns, owned as owned_by, part_length};
ghost use Rattle.model.specs.Tape.{tape_length};
ghost use Rattle.circuits.specs.Circuits.{net};
ghost use Rattle.dealer.specs.Lengths.{party_fault, place_length, slot_of};

use circuits::Circuit;
use refusals::Refusal;

// How many cells a block has: one for each LOOK gate and code. Here alone they are counted.
pub(crate) fn cell_count(circuit: &Circuit<'_>) -> usize
    ensures is { result ≡ cells (net circuit.now) }
    ensures within { result ≤ 240 * 256 }
{
    usize::from(circuit.look_count()) * usize::from(circuit.size())
}

// How many numbers a block has: its cells, and one for each output.
pub(crate) fn column_count(circuit: &Circuit<'_>) -> usize
    ensures is { result ≡ columns (net circuit.now) }
    ensures within { result ≤ 240 * 256 + 64 }
{
    cell_count(circuit) + circuit.output_count()
}

// How many of the input wires are `party`'s.
#[tactic(auto, using(crate::proofs::Owned::owned_count))]
pub(crate) fn owned(owners: &[u8], party: u8) -> usize
    ensures is { result ≡ owned_by party owners.now }
    ensures within { result ≤ length owners.now }
{
    owners
        .iter()
        .map(|owner| usize::from(*owner == party))
        .sum()
}

/// How many numbers a tape has.
pub fn tape_length(circuit: &Circuit<'_>) -> usize
    ensures { result ≡ tape_length (net circuit.now) }
{
    let others = usize::from(circuit.parties()) - 1;
    circuit.input_count() + (usize::from(circuit.look_count()) + others * column_count(circuit))
}

/// How many numbers the part of `party` has, or `Refusal::Party` if there is no such party.
// Circuit and party are handed in apart, as in every public call.
pub fn part_length(circuit: &Circuit<'_>, party: u8) -> Result<usize, Refusal>
    ensures { Tested (party_fault (net circuit.now) party) result (λ n. n ≡ part_length (net circuit.now) party) }
{
    if u16::from(party) >= circuit.parties() {
        return Err(Refusal::Party);
    }
    Ok(owned(circuit.owners(), party) + column_count(circuit))
}

/// How many bytes `party` keeps for one evaluation, its part and one byte for each wire, or `Refusal::Party` if there is
/// no such party.
pub fn place_length(circuit: &Circuit<'_>, party: u8) -> Result<usize, Refusal>
    ensures { Tested (party_fault (net circuit.now) party) result (λ n. n ≡ place_length (net circuit.now) party) }
{
    Ok(part_length(circuit, party)? + circuit.wire_count())
}

/// Where the part of `party` has the mask of `wire`, or `None` if that is no input wire of `party`.
#[tactic(auto, using(crate::proofs::Owned::owned_below))]
pub fn slot(circuit: &Circuit<'_>, party: u8, wire: u16) -> Option<usize>
    ensures is { result ≡ slot_of (net circuit.now) party wire }
    ensures within { IfSome result (λ s. s < owned_by party (net circuit.now).owners) }
{
    let owners = circuit.owners();
    let place = usize::from(wire);
    match owners.get(place) {
        Some(owner) if *owner == party => Some(owned(&owners[..place], party)),
        _ => None,
    }
}
