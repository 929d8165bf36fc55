//! Numbers of up to eight bits under exclusive or.
ghost use Rattle.std.specs.Prelude.{◌≡◌, ◌^◌, ◌≤◌, is_ok, MatchResult};
ghost use Rattle.groups.specs.Bitwise.{xor_group, xor_size};
ghost use Rattle.groups.specs.XorLaws.{xor_laws};

use crate::masks::MaskGroup;
use refusals::Refusal;

/// The numbers of some bits: sums are exclusive ors, and each bit is a generator, the lowest first.
#[derive(Clone, Copy, PartialEq, Eq, Debug)]
pub struct Xor {
    bits: u8,
    ghost ok: { (1 ≤ bits) × (bits ≤ 8) },
}

impl Xor {
    /// The group of `size` codes, or `Refusal::Group` unless that is a power of two from 2 to 256.
    pub fn new(size: u32) -> Result<Xor, Refusal>
        ensures made { MatchResult result (λ x. 2 ^ x.bits ≡ size) (λ e. e ≡ Refusal.Group) }
        ensures allowed { is_ok result ≡ xor_size size }
    {
        match size {
            2..=256 if size.is_power_of_two() => Ok(Xor {
                bits: size.trailing_zeros() as u8,
            }),
            _ => Err(Refusal::Group),
        }
    }
}

impl MaskGroup for Xor {
    ghost means = { λ s. xor_group s.bits };

    ghost lawful = { λ s. xor_laws s.bits s.ok };

    fn size(&self) -> u16 {
        1 << self.bits
    }

    fn generators(&self) -> u8 {
        self.bits
    }

    fn add(&self, a: u8, b: u8) -> u8 {
        a ^ b
    }

    fn negate(&self, a: u8) -> u8 {
        a
    }

    fn image(&self, row: &[u8; 8], a: u8) -> u8 {
        let mut sum = 0;
        for (i, image) in row[..usize::from(self.bits)].iter().enumerate() {
            if (a >> i) & 1 == 1 {
                sum ^= *image;
            }
        }
        sum
    }
}
