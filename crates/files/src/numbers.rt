// Numbers of one byte or two, held against a limit.
ghost use Rattle.std.specs.Prelude.{◌≡◌, ℕ, ◌+◌, ◌*◌, ◌^◌, ◌<◌, map, length, slice_index};
ghost use Rattle.std.specs.Result.{result_err};
ghost use Rattle.files.specs.Format.{joined};
ghost use Rattle.files.specs.Faults.{beyond};

// A number that takes WIDTH bytes of a file.
pub(crate) trait Number {
    const WIDTH: usize;

    ghost WIDTH: { ℕ };

    ghost number: { Self → ℕ };

    fn number(&self) -> usize
        ensures { result ≡ number self.now };
}

impl Number for u8 {
    const WIDTH: usize = 1;

    ghost WIDTH = { 1 };

    ghost number = { λ n. n };

    fn number(&self) -> usize {
        usize::from(*self)
    }
}

impl Number for u16 {
    const WIDTH: usize = 2;

    ghost WIDTH = { 2 };

    ghost number = { λ n. n };

    fn number(&self) -> usize {
        usize::from(*self)
    }
}

// Two bytes of a file, the low one first.
impl Number for [u8; 2] {
    const WIDTH: usize = 2;

    ghost WIDTH = { 2 };

    ghost number = { λ n. joined (slice_index n 0) (slice_index n 1) };

    fn number(&self) -> usize {
        usize::from(u16::from_le_bytes(*self))
    }
}

// Whether all numbers are below `high`; else the offset of the first that is not, where the numbers stand at `start` and after it.
pub(crate) fn all_below<N: Number>(numbers: &[N], start: usize, high: usize) -> Result<(), usize>
    requires { start + N.WIDTH * length numbers.now < 2 ^ 64 }
    ensures { result_err result ≡ beyond N.WIDTH start high (map N.number numbers.now) }
{
    match numbers.iter().position(|n| n.number() >= high) {
        None => Ok(()),
        Some(k) => Err(start + N::WIDTH * k),
    }
}
