// The header of a circuit file: seven counts, two bytes each.
ghost use Rattle.std.specs.Prelude.{◌≡◌, ◌+◌, ◌≤◌, length};
ghost use Rattle.refusals.specs.Tests.{Tested};
ghost use Rattle.files.specs.Format.{two, header_of};
ghost use Rattle.files.specs.Faults.{count_fault, counts_fault};

use crate::header::Header;
use crate::pairs::two_bytes;
use refusals::Refusal;

// The two-byte number at `k`, between its limits.
fn count(file: &[u8], k: usize, low: u16, high: u16) -> Result<u16, Refusal>
    requires { k + 2 ≤ length file.now }
    ensures { Tested (count_fault file.now k low high) result (λ n. (n ≡ two file.now k) × (low ≤ n) × (n ≤ high)) }
{
    let n = two_bytes(file, k);
    if (low..=high).contains(&n) {
        Ok(n)
    } else {
        Err(Refusal::Limit(k))
    }
}

impl Header {
    // The counts of a file, each within its limits.
    pub(crate) fn read(file: &[u8]) -> Result<Header, Refusal>
        requires { 54 ≤ length file.now }
        ensures { Tested (counts_fault file.now) result (λ h. h ≡ header_of file.now) }
    {
        Ok(Header {
            size: count(file, 0, 2, 256)?,
            parties: count(file, 2, 2, 8)?,
            inputs: count(file, 4, 1, 160)?,
            gates: count(file, 6, 0, 4096)?,
            tables: count(file, 8, 0, 16)?,
            rows: count(file, 10, 0, 64)?,
            outputs: count(file, 12, 1, 64)?,
        })
    }
}
