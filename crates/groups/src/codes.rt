// Which numbers are codes.
ghost use Rattle.std.specs.Prelude.{◌≡◌, ℕ, ◌<◌, true, length, slice_index};
ghost use Rattle.groups.specs.Tested.{are_codes};

/// Whether every number is below `size`. It does not stop at the first that is not, so that the pass has no branch.
pub fn are_codes(numbers: &[u8], size: u16) -> bool
    ensures is { result ≡ are_codes size numbers.now }
    ensures codes { result ≡ true → (k : ℕ) → k < length numbers.now → slice_index numbers.now k < size }
{
    numbers
        .iter()
        .fold(true, |all, n| all & (u16::from(*n) < size))
}
