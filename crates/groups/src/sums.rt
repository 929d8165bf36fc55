//! What is written once for every group.
ghost use Rattle.std.specs.Prelude.{◌≡◌};
ghost use Rattle.groups.specs.Algebra.{Algebra};
ghost use Rattle.groups.specs.Total.{Sums, total};

use crate::masks::MaskGroup;

/// The sum of all of `codes`, from the first on; 0 if there is none.
pub fn sum<G: MaskGroup>(group: &G, codes: &[u8]) -> u8
    ensures { result ≡ total (G.means group.now) codes.now }
{
    codes.iter().fold(0, |sum, c| group.add(sum, *c))
}

/// States what the laws give for codes: a theorem, and no work.
pub fn algebra_holds<G: MaskGroup>(group: &G)
    ensures { Algebra (G.means group.now) }
{
    let _ = group;
}

/// States what the laws give for sums of codes: a theorem, and no work.
pub fn sums_hold<G: MaskGroup>(group: &G)
    ensures { Sums (G.means group.now) }
{
    let _ = group;
}
