// A circuit over a group, and what flows along its wires.
ghost use Rattle.std.specs.Prelude.{◌≡◌, ◌<◌, length, take, if◌then◌else◌, ◌==◌};
ghost use Rattle.refusals.specs.Tests.{Tested, unless};
ghost use Rattle.files.specs.Gates.{gate_of};
ghost use Rattle.model.specs.Net.{inputs, wires as all_wires, first_of, second_of, limit, row_count, table_count, step, flow};
ghost use Rattle.circuits.specs.Circuits.{net};

use crate::circuit::Circuit;
use crate::rules::Rules;
use files::{Gate, Kind};
use groups::masks::MaskGroup;
use refusals::Refusal;

/// A circuit over a group of as many codes.
#[derive(Drop)]
pub struct Over<'a, G: MaskGroup> {
    pub group: &'a G,
    pub circuit: &'a Circuit<'a>,
    ghost agree: { (G.means group.now).size ≡ (net circuit.now).size },
}

impl<'a, G: MaskGroup> Over<'a, G> {
    /// The circuit over the group, or `Refusal::Counts` where the group has not as many codes as the circuit.
    // Public calls take the two apart; from here on they are one.
    pub fn new(group: &'a G, circuit: &'a Circuit<'a>) -> Result<Over<'a, G>, Refusal>
        ensures { Tested (unless ((G.means group.now).size == (net circuit.now).size) Refusal.Counts) result (λ o. (o.group.now ≡ group.now) × (o.circuit.now ≡ circuit.now)) }
    {
        if group.size() == circuit.size() {
            Ok(Over { group, circuit })
        } else {
            Err(Refusal::Counts)
        }
    }

    // The number that a gate gives its wire, from those of all wires before it; `ordinal` LOOK gates came before.
    fn step<R: Rules>(&self, rules: &R, ordinal: usize, known: &[u8], gate: &Gate) -> u8
        requires first { first_of (gate_of gate.now) < length known.now }
        requires second { second_of (gate_of gate.now) < limit (net self.now.circuit.now).size (row_count (net self.now.circuit.now)) (table_count (net self.now.circuit.now)) (length known.now) (gate_of gate.now) }
        ensures { result ≡ step (G.means self.now.group.now) (net self.now.circuit.now) (R.means rules.now) ordinal known.now (gate_of gate.now) }
    {
        let number = known[usize::from(gate.first)];
        // There are four kinds and no more, so that a match says best what each does.
        match gate.kind {
            Kind::Add => self.group.add(number, known[usize::from(gate.second)]),
            Kind::Shift => rules.shift(gate.second as u8, number),
            Kind::Map => self.group.image(self.circuit.row(gate.second), number),
            Kind::Look => rules.look(ordinal, gate.first, gate.second, number),
        }
    }

    /// Fills the wires that follow the inputs, whose numbers stand at the front, in a buffer with one byte for each wire.
    /// A buffer of another length stays as it was.
    pub fn flow<R: Rules>(&self, rules: &R, wires: &mut [u8])
        ensures { wires.new ≡ (if length wires.old == all_wires (net self.now.circuit.now) then flow (G.means self.now.group.now) (net self.now.circuit.now) (R.means rules.now) (take (inputs (net self.now.circuit.now)) wires.old) else wires.old) }
    {
        if wires.len() != self.circuit.wire_count() {
            return;
        }
        let inputs = self.circuit.input_count();
        // Each wire is written by its number, since a step reads those before it; how many LOOK gates came before is a number that
        // rules are given.
        let mut ordinal = 0;
        for (k, gate) in self.circuit.gates().iter().enumerate() {
            let number = self.step(rules, ordinal, &wires[..inputs + k], gate);
            wires[inputs + k] = number;
            ordinal += usize::from(gate.is_look());
        }
    }
}
