// Gate records and output numbers in places, tested as their entries in the file are.
ghost use Rattle.std.specs.Prelude.{◌≡◌, map, take, Some};
ghost use Rattle.model.specs.Net.{look_count};
ghost use Rattle.refusals.specs.Tests.{Tested};
ghost use Rattle.files.specs.Gates.{gates_of};
ghost use Rattle.files.specs.Faults.{gates_fault, outputs_fault};

use crate::gate::Gate;
use crate::header::Header;
use crate::numbers::all_below;
use crate::pairs::section_start;
use crate::slices::front;
use refusals::Refusal;

impl Header {
    /// Tests as many records as there are gates, as if they stood in the section that `pair` gives, and counts their LOOK gates.
    pub fn test_gates(&self, gates: &[Gate], pair: (u32, u32)) -> Result<u16, Refusal>
        ensures { Tested (gates_fault self.now pair.0 self.now.inputs 0 (map Some (gates_of (take self.now.gates gates.now)))) result (λ n. n ≡ look_count (gates_of (take self.now.gates gates.now))) }
    {
        let records = front(gates, usize::from(self.gates));
        let entries = records.iter().map(|gate| Some(*gate));
        self.test_entries(entries, section_start(pair))
    }

    /// Tests as many numbers as there are outputs, as if they stood in the section that `pair` gives.
    pub fn test_outputs(&self, outputs: &[u16], pair: (u32, u32)) -> Result<(), Refusal>
        ensures { Tested (outputs_fault self.now pair.0 (take self.now.outputs outputs.now)) result (λ _. Unit {0}) }
    {
        let records = front(outputs, usize::from(self.outputs));
        all_below(records, section_start(pair), self.wires()).map_err(Refusal::Absent)
    }
}
