// The counts at the front of a circuit file.
ghost use Rattle.std.specs.Prelude.{◌≡◌, ◌+◌};

/// The counts of a circuit: codes, parties, input wires, gates, tables, rows and outputs.
#[derive(Clone, Copy, PartialEq, Eq, Debug)]
pub struct Header {
    pub size: u16,
    pub parties: u16,
    pub inputs: u16,
    pub gates: u16,
    pub tables: u16,
    pub rows: u16,
    pub outputs: u16,
}

impl Header {
    // The number of wires: the inputs, and one for each gate.
    pub(crate) fn wires(&self) -> usize
        ensures { result ≡ self.now.inputs + self.now.gates }
    {
        usize::from(self.inputs) + usize::from(self.gates)
    }
}
