// What a clear run does at the gates.
ghost use Rattle.model.specs.Clear.{clearly};
ghost use Rattle.circuits.specs.Circuits.{net};

use circuits::{Over, Rules};
use groups::masks::MaskGroup;

// Values as they are: a SHIFT adds its constant, and a LOOK reads its table.
#[derive(Drop)]
pub(crate) struct ClearRules<'a, G: MaskGroup> {
    pub(crate) over: &'a Over<'a, G>,
}

impl<'a, G: MaskGroup> Rules for ClearRules<'a, G> {
    ghost means = { λ s. clearly (G.means s.over.now.group.now) (net s.over.now.circuit.now) };

    fn shift(&self, constant: u8, number: u8) -> u8 {
        self.over.group.add(number, constant)
    }

    // By the entry's place among all tables and not by `Circuit::table`, since a rule answers on every number, and past a table the
    // definition reads on in the next.
    fn look(&self, _ordinal: usize, _operand: u16, table: u16, number: u8) -> u8 {
        let circuit = self.over.circuit;
        let start = usize::from(table) * usize::from(circuit.size());
        let entry = circuit.tables().get(start + usize::from(number));
        entry.copied().unwrap_or(0)
    }
}
