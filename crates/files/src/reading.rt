// READ: all tests, then the places.
ghost use Rattle.std.specs.Prelude.{◌≡◌, ◌≤◌, length, MatchResult};
ghost use Rattle.refusals.specs.Tests.{Tested};
ghost use Rattle.files.specs.Faults.{places_fault, fault};
ghost use Rattle.files.specs.Format.{InFile, Lengths};
ghost use Rattle.files.specs.Read.{Surveyed, Answered, Filled};

use crate::contents::{Contents, Survey};
use crate::directory::Directory;
use crate::fills::{fill_gates, fill_numbers};
use crate::gate::Gate;
use crate::header::Header;
use crate::reader::Reader;
use crate::slices::section_of;
use refusals::Refusal;

impl Header {
    // There are places for all gates and all outputs.
    fn test_places(&self, gate_places: usize, output_places: usize) -> Result<(), Refusal>
        ensures { Tested (places_fault self.now gate_places output_places) result (λ _. (self.now.gates ≤ gate_places) × (self.now.outputs ≤ output_places)) }
    {
        if usize::from(self.gates) > gate_places {
            return Err(Refusal::Places(6));
        }
        if usize::from(self.outputs) > output_places {
            return Err(Refusal::Places(12));
        }
        Ok(())
    }
}

/// Tests a file as READ does, for so many gate places and output places, and answers its numbers.
#[tactic(auto, using(crate::proofs::Chains::sections_decide), unfolding(crate::specs::Faults::fault))]
pub fn survey(file: &[u8], gate_places: usize, output_places: usize) -> Result<Survey, Refusal>
    ensures { Tested (fault file.now gate_places output_places) result (λ s. Surveyed file.now s × InFile file.now × Lengths file.now × (s.header.gates ≤ gate_places) × (s.header.outputs ≤ output_places)) }
{
    if file.len() < 54 {
        return Err(Refusal::Layout(file.len()));
    }
    let header = Header::read(file)?;
    let directory = Directory::read(file, &header)?;
    header.test_places(gate_places, output_places)?;
    let mut reader = Reader {
        at: 0,
        end: file.len(),
    };
    let looks = reader.test_sections(file, &header, &directory)?;
    Ok(Survey {
        header,
        directory,
        looks,
    })
}

/// READ: tests the file, fills the first places with its gate records and output numbers, and answers the rest of it.
/// A refusal leaves all places as they were.
#[tactic(auto, using(crate::proofs::Passed::section_length, crate::proofs::Passed::gates_counted, crate::proofs::Passed::outputs_counted))]
pub fn read<'a>(
    file: &'a [u8],
    gates: &mut [Gate],
    outputs: &mut [u16],
) -> Result<Contents<'a>, Refusal>
    ensures answer { Tested (fault file.now (length gates.old) (length outputs.old)) result (λ c. Answered file.now c) }
    ensures places { MatchResult result (λ _. Filled file.now gates.old gates.new outputs.old outputs.new) (λ _. (gates.new ≡ gates.old) × (outputs.new ≡ outputs.old)) }
{
    let Survey {
        header,
        directory,
        looks,
    } = survey(file, gates.len(), outputs.len())?;
    fill_gates(section_of(file, directory.gates), gates);
    fill_numbers(section_of(file, directory.outputs), outputs);
    Ok(Contents {
        header,
        looks,
        owners: section_of(file, directory.owners),
        tables: section_of(file, directory.tables),
        rows: section_of(file, directory.rows),
    })
}
