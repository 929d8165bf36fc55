// The entries of a section of gates, read one by one.
ghost use Rattle.std.specs.Prelude.{◌≡◌, option_map};
ghost use Rattle.std.specs.Iterator.{YieldsFirst, item_count};
ghost use Rattle.files.specs.Gates.{record_of, entries_in};
ghost use Rattle.files.specs.Format.{gate_of_kind};

use crate::gate::{Gate, Kind};

impl Gate {
    // The gate of a kind in numbers, if there is such a kind.
    fn of_kind(kind: u8, first: u16, second: u16) -> Option<Gate>
        ensures { result ≡ option_map record_of (gate_of_kind kind first second) }
    {
        let kind = Kind::try_from(kind).ok()?;
        Some(Gate {
            kind,
            first,
            second,
        })
    }
}

// The entries of a section of gates: five bytes each, and `None` for one of no known kind. Bytes that are too few for another
// entry are passed over.
#[derive(Drop)]
pub(crate) struct Entries<'f> {
    left: &'f [u8],
}

impl<'f> Entries<'f> {
    pub(crate) fn new(section: &'f [u8]) -> Entries<'f>
        ensures { result.left.now ≡ section.now }
    {
        Entries { left: section }
    }
}

impl Iterator for Entries<'_> {
    type Item = Option<Gate>;

    ghost next_gives = { YieldsFirst (λ s. entries_in s.left.now) };

    ghost remaining = { item_count (λ s. entries_in s.left.now) };

    // A rule of the project asks for this form: a slice pattern with five named bytes and the rest of the section.
    #[tactic(auto, using(crate::proofs::Left::entries_more))]
    fn next(&mut self) -> Option<Option<Gate>> {
        let [kind, a0, a1, b0, b1, rest @ ..] = self.left else {
            return None;
        };
        self.left = rest;
        let first = u16::from_le_bytes([*a0, *a1]);
        let second = u16::from_le_bytes([*b0, *b1]);
        Some(Gate::of_kind(*kind, first, second))
    }
}
