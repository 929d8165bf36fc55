// The LOOK gates of a circuit.
ghost use Rattle.std.specs.Prelude.{◌≡◌, ◌≤◌, length, position};
ghost use Rattle.std.specs.Iterator.{YieldsFirstBy, item_count};
ghost use Rattle.model.specs.Net.{is_look, lookups};
ghost use Rattle.files.specs.Gates.{gate_of};
ghost use Rattle.circuits.specs.Circuits.{net};
ghost use Rattle.circuits.specs.Looked.{lookup_of};

use crate::circuit::Circuit;
use files::Gate;
use std::marker::Model;

/// A LOOK gate: the wire that it writes, its operand and its table.
#[derive(Clone, Copy, PartialEq, Eq, Debug)]
pub struct Lookup {
    pub wire: usize,
    pub operand: u16,
    pub table: u16,
}

/// The LOOK gates of a circuit in their order, seen as the list of those that are left.
#[derive(Drop)]
pub struct Lookups<'a> {
    gates: &'a [Gate],
    // The wire that the first of `gates` writes.
    wire: usize,
}

impl<'a> Model for Lookups<'a> {
    ghost use Rattle.std.specs.Prelude.{◌+◌, ◌^◌, ◌<◌, List, length};
    ghost use Rattle.model.specs.Net.{Lookup as Looked, lookups_from};
    ghost use Rattle.files.specs.Gates.{gates_of};

    ghost Value = { List Looked };

    ghost view = { λ s. lookups_from s.wire (gates_of s.gates.now) };

    ghost invariant = { λ s. s.wire + length s.gates.now < 2 ^ 64 };
}

// The place of the first LOOK. A function of its own, since the proof of `next` did not close with this in it.
fn first_look(gates: &[Gate]) -> Option<usize>
    ensures { result ≡ position (λ g. is_look (gate_of g)) gates.now }
{
    gates.iter().position(|gate| gate.is_look())
}

impl<'a> Iterator for Lookups<'a> {
    type Item = Lookup;

    ghost next_gives = { YieldsFirstBy lookup_of (λ rest. rest) };

    ghost remaining = { item_count (λ rest. rest) };

    fn next(&mut self) -> Option<Lookup> {
        let before = first_look(self.gates)?;
        let gate = self.gates[before];
        let wire = self.wire + before;
        self.gates = &self.gates[before + 1..];
        self.wire = wire + 1;
        Some(Lookup {
            wire,
            operand: gate.first,
            table: gate.second,
        })
    }
}

impl<'a> Circuit<'a> {
    /// The LOOK gates in the order in which they run.
    pub fn lookups(&self) -> Lookups<'a>
        ensures is { result ≡ lookups (net self.now) }
        ensures few { length result ≤ 240 }
    {
        Lookups {
            gates: self.gates,
            wire: self.input_count(),
        }
    }
}
