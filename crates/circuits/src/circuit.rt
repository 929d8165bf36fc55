// A circuit over lent sections, and what every circuit keeps.
ghost use Rattle.std.specs.Prelude.{◌≡◌, [], ◌∷◌};
ghost use Rattle.model.specs.Net.{Valid, look_count};
ghost use Rattle.files.specs.Gates.{gates_of};
ghost use Rattle.circuits.specs.Nets.{net_of};

use files::Gate;

/// A circuit that passed every test. Its sections are lent, and what the tests found stays true of them.
#[derive(Clone, Copy)]
pub struct Circuit<'a> {
    pub(crate) size: u16,
    pub(crate) parties: u16,
    pub(crate) looks: u16,
    pub(crate) owners: &'a [u8],
    pub(crate) tables: &'a [u8],
    pub(crate) rows: &'a [u8],
    pub(crate) gates: &'a [Gate],
    pub(crate) outputs: &'a [u16],
    ghost valid: { Valid (net_of size parties owners.now tables.now rows.now gates.now outputs.now) },
    ghost looked: { looks ≡ look_count (gates_of gates.now) },
}

impl<'a> Circuit<'a> {
    /// The circuit that is built in: two codes, two parties, one wire, which is party 0's input and the one output.
    pub fn single() -> Circuit<'a>
        ensures { net_of result.size result.parties result.owners.now result.tables.now result.rows.now result.gates.now result.outputs.now ≡ net_of 2 2 (0 ∷ []) [] [] [] (0 ∷ []) }
    {
        Circuit {
            size: 2,
            parties: 2,
            looks: 0,
            owners: &[0],
            tables: &[],
            rows: &[],
            gates: &[],
            outputs: &[0],
        }
    }
}
