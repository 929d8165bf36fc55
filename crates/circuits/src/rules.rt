// What a flow of numbers does at the gates that differ from flow to flow.
ghost use Rattle.std.specs.Prelude.{◌≡◌};
ghost use Rattle.model.specs.Net.{Rules as NumberRules};

/// What a flow of numbers along the wires does at a SHIFT and at a LOOK.
pub trait Rules {
    /// The rules in numbers.
    ghost means: { Self → NumberRules };

    /// What a SHIFT by `constant` makes of its operand's number.
    fn shift(&self, constant: u8, number: u8) -> u8
        ensures { result ≡ (means self.now).shift constant number };

    /// What the LOOK before which `ordinal` others came makes of its operand's number.
    fn look(&self, ordinal: usize, operand: u16, table: u16, number: u8) -> u8
        ensures { result ≡ (means self.now).look ordinal operand table number };
}
