// Tapes and lawful deals.
ghost use Rattle.std.specs.Prelude.{◌≡◌};
ghost use Rattle.model.specs.Tape.{OneToOne, TapesAreDeals};
ghost use Rattle.circuits.specs.Circuits.{net};

use circuits::Circuit;
use groups::masks::MaskGroup;

/// States that tapes of codes and lawful deals are one to one, for this circuit over this group if their sizes agree, and
/// for every valid circuit over every group: a theorem, and no work.
pub fn tapes_are_lawful_deals<G: MaskGroup>(group: &G, circuit: &Circuit<'_>)
    ensures here { (G.means group.now).size ≡ (net circuit.now).size → OneToOne (G.means group.now) (net circuit.now) }
    ensures all { TapesAreDeals }
{
    let _ = group;
    let _ = circuit;
}
