// The clear run as a call.
ghost use Rattle.std.specs.Prelude.{◌≡◌, length, OnErr};
ghost use Rattle.refusals.specs.Tests.{Tested};
ghost use Rattle.model.specs.Clear.{clear, outputs_of};
ghost use Rattle.circuits.specs.Circuits.{net};
ghost use Rattle.clear.specs.Runs.{Ready, run_fault};

use crate::gates::ClearRules;
use circuits::{Circuit, Over};
use groups::codes::are_codes;
use groups::masks::MaskGroup;
use refusals::Refusal;

// What a run asks, before anything is written: gives the circuit over the group. PART and SHIFT ask the like of other lists;
// what is the same for all three is `Over::new` and `are_codes`, and one function for the rest would take each test as a
// parameter.
fn test<'a, G: MaskGroup>(
    group: &'a G,
    circuit: &'a Circuit<'a>,
    values: &[u8],
    wire_places: usize,
    output_places: usize,
) -> Result<Over<'a, G>, Refusal>
    ensures { Tested (run_fault (G.means group.now) (net circuit.now) values.now wire_places output_places) result (λ o. (o.group.now ≡ group.now) × (o.circuit.now ≡ circuit.now) × Ready (G.means group.now) (net circuit.now) values.now wire_places output_places) }
{
    let over = Over::new(group, circuit)?;
    if values.len() != circuit.input_count()
        || wire_places != circuit.wire_count()
        || output_places != circuit.output_count()
    {
        return Err(Refusal::Length);
    }
    if !are_codes(values, circuit.size()) {
        return Err(Refusal::NotCode);
    }
    Ok(over)
}

/// Runs a circuit on the values of its inputs, with no masks. Writes the value of every wire to `wires` and those of the
/// output wires to `outputs`; where it refuses it writes nothing.
pub fn evaluate<G: MaskGroup>(
    group: &G,
    circuit: &Circuit<'_>,
    values: &[u8],
    wires: &mut [u8],
    outputs: &mut [u8],
) -> Result<(), Refusal>
    ensures tested { Tested (run_fault (G.means group.now) (net circuit.now) values.now (length wires.old) (length outputs.old)) result (λ _. (wires.new ≡ clear (G.means group.now) (net circuit.now) values.now) × (outputs.new ≡ outputs_of (net circuit.now) (clear (G.means group.now) (net circuit.now) values.now))) }
    ensures kept { OnErr result ((wires.new ≡ wires.old) × (outputs.new ≡ outputs.old)) }
{
    let over = test(group, circuit, values, wires.len(), outputs.len())?;
    wires[..values.len()].copy_from_slice(values);
    over.flow(&ClearRules { over: &over }, wires);
    circuit.gather_outputs(wires, outputs);
    Ok(())
}
