// The tests of a circuit's gates.
ghost use Rattle.std.specs.Prelude.{◌≡◌, ◌+◌, ◌*◌, ◌^◌, ◌<◌, List, Option, option_map};
ghost use Rattle.std.specs.Iterator.{IsFinite, size, AlwaysYields};
ghost use Rattle.model.specs.Net as net;
ghost use Rattle.model.specs.Net.{is_look, look_count};
ghost use Rattle.refusals.specs.Tests.{Tested};
ghost use Rattle.files.specs.Gates.{gate_of};
ghost use Rattle.files.specs.Format.{known};
ghost use Rattle.files.specs.Faults.{gate_fault, gates_fault};

use crate::gate::{Gate, Kind};
use crate::header::Header;
use refusals::Refusal;

impl Gate {
    // Tests a gate that stands at `at` and writes `wire`, `looks` LOOK gates having come before.
    fn test(&self, header: &Header, at: usize, wire: usize, looks: u16) -> Result<(), Refusal>
        requires { at + 5 < 2 ^ 64 }
        ensures { Tested (gate_fault header.now at wire looks (gate_of self.now)) result (λ _. Unit {0}) }
    {
        if self.is_look() && looks >= 240 {
            return Err(Refusal::Limit(at));
        }
        if usize::from(self.first) >= wire {
            return Err(Refusal::Operand(at + 1));
        }
        let second = self.second;
        // What the second operand is depends on the kind, and the kinds are four.
        match self.kind {
            Kind::Add if usize::from(second) >= wire => Err(Refusal::Operand(at + 3)),
            Kind::Shift if second >= header.size => Err(Refusal::Code(at + 3)),
            Kind::Map if second >= header.rows => Err(Refusal::Operand(at + 3)),
            Kind::Look if second >= header.tables => Err(Refusal::Operand(at + 3)),
            _ => Ok(()),
        }
    }
}

impl Header {
    // Tests the entries of a section of gates that starts at `start`, and counts the LOOK gates.
    // It is kept apart from its callers, so that its loop has the registers to itself.
    #[inline(never)]
    pub(crate) fn test_entries<I: Iterator<Item = Option<Gate>> + Drop>(
        &self,
        entries: I,
        start: usize,
    ) -> Result<u16, Refusal>
        requires can { I.can_next entries }
        requires ends { IsFinite (I.remaining entries) }
        requires near { start + 5 * size (I.remaining entries) < 2 ^ 63 }
        ensures { (es : List (Option net.Gate)) → AlwaysYields I.next_gives (option_map gate_of) entries es → Tested (gates_fault self.now start self.now.inputs 0 es) result (λ n. n ≡ look_count (known es)) }
    {
        let inputs = usize::from(self.inputs);
        // Counted beside the loop, since each gate is tested against the count so far.
        let mut looks = 0;
        for (k, entry) in entries.enumerate() {
            let at = start + 5 * k;
            let gate = entry.ok_or(Refusal::Kind(at))?;
            gate.test(self, at, inputs + k, looks)?;
            looks += u16::from(gate.is_look());
        }
        Ok(looks)
    }
}
