// Parts of slices that exist whatever the numbers are.
ghost use Rattle.std.specs.Prelude.{◌≡◌, ◌≤◌, length, take, drop};

use crate::pairs::section_start;

/// The first `n` elements, or all where there are fewer.
pub fn front<T>(items: &[T], n: usize) -> &[T]
    ensures { (result.now ≡ take n items.now) × (length result.now ≤ n) }
{
    items.get(..n).unwrap_or(items)
}

/// The bytes that a pair of offset and length gives of a file, as far as the file has them.
pub fn section_of(file: &[u8], pair: (u32, u32)) -> &[u8]
    ensures { result.now ≡ take pair.1 (drop pair.0 file.now) }
{
    let from_start = file.get(section_start(pair)..).unwrap_or(&[]);
    front(from_start, pair.1 as usize)
}
