//! What the groups have in common.
ghost use Rattle.std.specs.Prelude.{◌≡◌};
ghost use Rattle.groups.specs.Group.{Group, Laws, sub};

/// A group on the codes 0 to q - 1.
///
/// Open: on numbers that are no codes. The laws speak of codes alone, and what a method answers on a number of q or
/// more may change. Promised there all the same: it takes every byte, answers with the byte that `means` has for the
/// bytes given, so that equal bytes get equal answers, and changes nothing.
pub trait MaskGroup {
    /// The group in numbers.
    ghost means: { Self → Group };

    /// How many codes there are: q, from 2 to 256.
    fn size(&self) -> u16
        ensures { result ≡ (means self.now).size };

    /// How many generators there are: g, so many codes of a row are read.
    fn generators(&self) -> u8
        ensures { result ≡ (means self.now).gens };

    /// The sum of two codes.
    fn add(&self, a: u8, b: u8) -> u8
        ensures { result ≡ (means self.now).add a b };

    /// The code that gives 0 when it is added to `a`.
    fn negate(&self, a: u8) -> u8
        ensures { result ≡ (means self.now).neg a };

    /// The code that gives `a` when `b` is added to it.
    fn subtract(&self, a: u8, b: u8) -> u8
        ensures { result ≡ sub (means self.now) a b }
    {
        self.add(a, self.negate(b))
    }

    /// Where the map that takes the generators, in their order, to the codes of `row` takes `a`.
    fn image(&self, row: &[u8; 8], a: u8) -> u8
        ensures { result ≡ (means self.now).image row.now a };

    /// What each `impl` must prove.
    ghost lawful: { (s : Self) → Laws (means s) };
}
