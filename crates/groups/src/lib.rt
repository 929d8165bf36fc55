//! Mask groups: the codes 0 to q - 1 under an addition of their own, with 2 to 256 codes, and the maps on codes that
//! keep sums.

#![tactic(auto)]

ghost use Rattle.std.specs.Prelude.{◌≡◌};
ghost use Rattle.groups.specs.Choice.{kind_number};

pub mod bitwise;
pub mod choice;
pub mod codes;
pub mod masks;
pub mod modular;
pub mod sums;

/// The kinds of group that a word can name.
#[derive(Clone, Copy, PartialEq, Eq, Debug)]
pub enum Kind {
    /// Exclusive or: a [`bitwise::Xor`].
    Xor = 1,
    /// Addition modulo the size: a [`modular::Mod`].
    Mod = 2,
}

impl Kind {
    /// 1 for xor and 2 for mod. A number, because hosts say by it which group they mean; inside, the kind is an enum.
    pub fn number(self) -> u8
        ensures { result ≡ kind_number self }
    {
        self as u8
    }
}
