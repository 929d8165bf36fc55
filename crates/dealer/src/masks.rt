// The rules by which masks flow.
ghost use Rattle.model.specs.Deal.{masking};

use circuits::Rules;

// Masks flow as values do, but a SHIFT keeps its operand's mask, and a LOOK has the mask that was dealt for it.
#[derive(Drop)]
pub(crate) struct Masking<'t> {
    pub looks: &'t [u8],
}

impl Rules for Masking<'_> {
    ghost means = { λ s. masking s.looks.now };

    fn shift(&self, _constant: u8, number: u8) -> u8 {
        number
    }

    fn look(&self, ordinal: usize, _operand: u16, _table: u16, _number: u8) -> u8 {
        self.looks.get(ordinal).copied().unwrap_or(0)
    }
}
