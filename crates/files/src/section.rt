// A section of a circuit file, and its tests.
ghost use Rattle.std.specs.Prelude.{◌≡◌, ◌+◌, ◌^◌, ◌<◌, length};
ghost use Rattle.model.specs.Net.{look_count};
ghost use Rattle.refusals.specs.declared.Refusal.TheVariants.{Absent, Code};
ghost use Rattle.refusals.specs.Tests.{Tested, found};
ghost use Rattle.files.specs.Format.{gate_entries, known, numbers};
ghost use Rattle.files.specs.Faults.{beyond, gates_fault, outputs_fault};

use crate::entries::Entries;
use crate::header::Header;
use crate::numbers::all_below;
use refusals::Refusal;

// The bytes of a section, and the offset of the first in the file.
#[derive(Clone, Copy)]
pub(crate) struct Section<'f> {
    pub(crate) bytes: &'f [u8],
    pub(crate) start: usize,
    ghost near: { start + length bytes.now < 2 ^ 63 },
}

impl Section<'_> {
    // Every owner is a party.
    pub(crate) fn test_owners(&self, header: &Header) -> Result<(), Refusal>
        ensures { Tested (found Absent (beyond 1 self.now.start header.now.parties self.now.bytes.now)) result (λ _. Unit {0}) }
    {
        all_below(self.bytes, self.start, usize::from(header.parties)).map_err(Refusal::Absent)
    }

    // Every byte, of a table or a row, is a code. Only the limit and the refusal differ from `test_owners`: the rest is `all_below`.
    pub(crate) fn test_codes(&self, header: &Header) -> Result<(), Refusal>
        ensures { Tested (found Code (beyond 1 self.now.start header.now.size self.now.bytes.now)) result (λ _. Unit {0}) }
    {
        all_below(self.bytes, self.start, usize::from(header.size)).map_err(Refusal::Code)
    }

    // Every gate is of a known kind and has operands that it may have; the LOOK gates are counted.
    #[tactic(auto, using(crate::proofs::Filling::entries_in_few))]
    pub(crate) fn test_gates(&self, header: &Header) -> Result<u16, Refusal>
        ensures { Tested (gates_fault header.now self.now.start header.now.inputs 0 (gate_entries self.now.bytes.now)) result (λ n. n ≡ look_count (known (gate_entries self.now.bytes.now))) }
    {
        header.test_entries(Entries::new(self.bytes), self.start)
    }

    // Every output is a wire.
    #[tactic(auto, using(crate::proofs::Limits::numbers_in_chunks))]
    pub(crate) fn test_outputs(&self, header: &Header) -> Result<(), Refusal>
        ensures { Tested (outputs_fault header.now self.now.start (numbers self.now.bytes.now)) result (λ _. Unit {0}) }
    {
        let (outputs, _) = self.bytes.as_chunks::<2>();
        all_below(outputs, self.start, header.wires()).map_err(Refusal::Absent)
    }
}
