// The directory: five pairs of offset and length.
ghost use Rattle.std.specs.Prelude.{◌≡◌, ◌+◌, ◌^◌, ◌<◌, ◌≤◌, length};
ghost use Rattle.refusals.specs.Tests.{Tested};
ghost use Rattle.files.specs.Format.{two, four, offset, len, header_of, directory_of, InFile, Lengths};
ghost use Rattle.files.specs.Faults.{pair_fault, pairs_fault};

use crate::directory::Directory;
use crate::header::Header;
use refusals::Refusal;

// The two-byte number at `k`, low byte first. Functions of counts and pairs take the file and an offset, since the offset is the
// figure of their refusal.
pub(crate) fn two_bytes(file: &[u8], k: usize) -> u16
    requires { k + 2 ≤ length file.now }
    ensures { result ≡ two file.now k }
{
    u16::from_le_bytes([file[k], file[k + 1]])
}

// The four-byte number at `k`, low byte first.
fn four_bytes(file: &[u8], k: usize) -> u32
    requires { k + 4 ≤ length file.now }
    ensures { result ≡ four file.now k }
{
    u32::from_le_bytes([file[k], file[k + 1], file[k + 2], file[k + 3]])
}

// Offset and length of the section whose pair stands at `k`. A rule of the project asks for this form: an entry of the directory
// is answered as a tuple of two `u32`.
fn pair(file: &[u8], k: usize) -> (u32, u32)
    requires { k + 8 ≤ length file.now }
    ensures { (result.0 ≡ offset file.now k) × (result.1 ≡ len file.now k) }
{
    (four_bytes(file, k), four_bytes(file, k + 4))
}

// Where a section starts.
pub(crate) fn section_start(pair: (u32, u32)) -> usize
    ensures { (result ≡ pair.0) × (result < 2 ^ 32) }
{
    pair.0 as usize
}

// Where a section ends; a sum of two four-byte numbers.
pub(crate) fn section_end(pair: (u32, u32)) -> usize
    ensures { result ≡ pair.0 + pair.1 }
{
    pair.0 as usize + pair.1 as usize
}

// A pair with the expected length that begins no sooner than it may.
fn placed(file: &[u8], k: usize, soonest: usize, expected: usize) -> Result<(u32, u32), Refusal>
    requires { k + 8 ≤ length file.now }
    ensures { Tested (pair_fault file.now k soonest expected) result (λ p. (p.0 ≡ offset file.now k) × (p.1 ≡ len file.now k) × (p.1 ≡ expected) × (soonest ≤ p.0)) }
{
    let found = pair(file, k);
    if found.1 as usize == expected && soonest <= found.0 as usize {
        Ok(found)
    } else {
        Err(Refusal::Layout(k))
    }
}

impl Directory {
    // The five pairs of a file, each where it may stand.
    pub(crate) fn read(file: &[u8], header: &Header) -> Result<Directory, Refusal>
        requires long { 54 ≤ length file.now }
        requires counts { header.now ≡ header_of file.now }
        ensures { Tested (pairs_fault file.now) result (λ d. (d ≡ directory_of file.now) × InFile file.now × Lengths file.now) }
    {
        let owners = placed(file, 14, 54, usize::from(header.inputs))?;
        let tables = placed(
            file,
            22,
            section_end(owners),
            usize::from(header.tables) * usize::from(header.size),
        )?;
        let rows = placed(file, 30, section_end(tables), 8 * usize::from(header.rows))?;
        let gates = placed(file, 38, section_end(rows), 5 * usize::from(header.gates))?;
        let outputs = placed(
            file,
            46,
            section_end(gates),
            2 * usize::from(header.outputs),
        )?;
        if section_end(outputs) > file.len() {
            return Err(Refusal::Layout(46));
        }
        Ok(Directory {
            owners,
            tables,
            rows,
            gates,
            outputs,
        })
    }
}
