// The five sections, each read by a reader that is held to it.
ghost use Rattle.std.specs.Prelude.{◌≡◌};
ghost use Rattle.model.specs.Net.{look_count};
ghost use Rattle.refusals.specs.Tests.{Tested};
ghost use Rattle.files.specs.Format.{header_of, directory_of, gates_at, section, gate_entries, known, InFile};
ghost use Rattle.files.specs.Faults.{sections_fault};

use crate::directory::Directory;
use crate::header::Header;
use crate::reader::Reader;
use refusals::Refusal;

impl Reader {
    // Every owner is a party, every byte of a table or a row a code, every gate of a known kind with operands that it may have, and
    // every output a wire. The LOOK gates are counted.
    pub(crate) fn test_sections(
        &mut self,
        file: &[u8],
        header: &Header,
        directory: &Directory,
    ) -> Result<u16, Refusal>
        requires counts { header.now ≡ header_of file.now }
        requires pairs { directory.now ≡ directory_of file.now }
        requires within { InFile file.now }
        ensures tests { Tested (sections_fault file.now) result (λ n. n ≡ look_count (known (gate_entries (section file.now gates_at)))) }
        ensures end { self.new.end ≡ self.old.end }
    {
        self.narrow(directory.owners)
            .section(file)
            .test_owners(header)?;
        self.narrow(directory.tables)
            .section(file)
            .test_codes(header)?;
        self.narrow(directory.rows)
            .section(file)
            .test_codes(header)?;
        let looks = self
            .narrow(directory.gates)
            .section(file)
            .test_gates(header)?;
        self.narrow(directory.outputs)
            .section(file)
            .test_outputs(header)?;
        Ok(looks)
    }
}
