//! Numbers below a modulus under addition.
ghost use Rattle.std.specs.Prelude.{◌≡◌, ◌%◌, ◌<◌, ◌≤◌, is_ok, MatchResult};
ghost use Rattle.groups.specs.Modular.{mod_group, mod_size};
ghost use Rattle.groups.specs.ModLaws.{mod_laws};

use crate::masks::MaskGroup;
use refusals::Refusal;

/// The numbers below a modulus: sums are taken modulo it, and 1 is the one generator.
#[derive(Clone, Copy, PartialEq, Eq, Debug)]
pub struct Mod {
    modulus: u16,
    ghost ok: { (2 ≤ modulus) × (modulus ≤ 256) },
}

impl Mod {
    /// The group of `size` codes, or `Refusal::Group` unless that is from 2 to 256.
    // As `Xor::new`, of another type: what the two share are two lines of a match.
    pub fn new(size: u32) -> Result<Mod, Refusal>
        ensures made { MatchResult result (λ m. m.modulus ≡ size) (λ e. e ≡ Refusal.Group) }
        ensures allowed { is_ok result ≡ mod_size size }
    {
        match size {
            2..=256 => Ok(Mod {
                modulus: size as u16,
            }),
            _ => Err(Refusal::Group),
        }
    }
}

// `n` modulo `modulus`: of a sum of two codes by a subtraction, which is quicker than a division.
fn reduced(n: u16, modulus: u16) -> u16
    requires { 0 < modulus }
    ensures { result ≡ n % modulus }
{
    if n < modulus {
        return n;
    }
    let less = n - modulus;
    if less < modulus { less } else { less % modulus }
}

impl MaskGroup for Mod {
    ghost means = { λ s. mod_group s.modulus };

    ghost lawful = { λ s. mod_laws s.modulus s.ok };

    fn size(&self) -> u16 {
        self.modulus
    }

    fn generators(&self) -> u8 {
        1
    }

    fn add(&self, a: u8, b: u8) -> u8 {
        reduced(u16::from(a) + u16::from(b), self.modulus) as u8
    }

    fn negate(&self, a: u8) -> u8 {
        reduced(self.modulus.saturating_sub(u16::from(a)), self.modulus) as u8
    }

    fn image(&self, row: &[u8; 8], a: u8) -> u8 {
        (u16::from(row[0]) * u16::from(a) % self.modulus) as u8
    }
}
