// CIRCUIT: the one way to a circuit that is not built in.
ghost use Rattle.std.specs.Prelude.{◌≡◌, OnErr};
ghost use Rattle.refusals.specs.Tests.{Tested};
ghost use Rattle.circuits.specs.Circuits.{net};
ghost use Rattle.circuits.specs.Made.{circuit_fault, circuit_net};

use crate::circuit::Circuit;
use files::{Gate, Survey, front, section_of, survey};
use refusals::Refusal;

impl<'a> Circuit<'a> {
    // The circuit of a file and of the places that READ filled: tests the file, then the places.
    fn new(file: &'a [u8], gates: &'a [Gate], outputs: &'a [u16]) -> Result<Circuit<'a>, Refusal>
        ensures { Tested (circuit_fault file.now gates.now outputs.now) result (λ c. net c ≡ circuit_net file.now gates.now outputs.now) }
    {
        let Survey {
            header,
            directory,
            ..
        } = survey(file, gates.len(), outputs.len())?;
        let looks = header.test_gates(gates, directory.gates)?;
        header.test_outputs(outputs, directory.outputs)?;
        Ok(Circuit {
            size: header.size,
            parties: header.parties,
            looks,
            owners: section_of(file, directory.owners),
            tables: section_of(file, directory.tables),
            rows: section_of(file, directory.rows),
            gates: front(gates, usize::from(header.gates)),
            outputs: front(outputs, usize::from(header.outputs)),
        })
    }

    /// CIRCUIT: tests the file, then the places that READ filled, and puts their circuit in the place of this one.
    /// A refusal leaves this one as it was.
    pub fn replace(
        &mut self,
        file: &'a [u8],
        gates: &'a [Gate],
        outputs: &'a [u16],
    ) -> Result<(), Refusal>
        ensures answer { Tested (circuit_fault file.now gates.now outputs.now) result (λ _. net self.new ≡ circuit_net file.now gates.now outputs.now) }
        ensures kept { OnErr result (self.new ≡ self.old) }
    {
        *self = Circuit::new(file, gates, outputs)?;
        Ok(())
    }
}
