// FILL: a tape from random bytes.
ghost use Rattle.std.specs.Prelude.{◌≡◌, length, OnErr};
ghost use Rattle.refusals.specs.Tests.{Tested};
ghost use Rattle.groups.specs.Group.{Codes};
ghost use Rattle.dealer.specs.Fills.{filled, fill_fault};

use crate::changes::change_each;
use groups::masks::MaskGroup;
use refusals::Refusal;

/// FILL: writes to `tape` the remainder of each random byte modulo the number of codes, which is a code. Refuses with
/// `Refusal::Length` if there are not as many bytes as places, and then leaves the tape as it was.
///
/// Where the number of codes divides 256, uniform bytes give uniform codes; elsewhere small codes come more often.
pub fn fill<G: MaskGroup>(group: &G, random: &[u8], tape: &mut [u8]) -> Result<(), Refusal>
    ensures tested { Tested (fill_fault (length random.now) (length tape.old)) result (λ _. (tape.new ≡ filled (G.means group.now).size random.now) × Codes (G.means group.now) tape.new) }
    ensures kept { OnErr result (tape.new ≡ tape.old) }
{
    if random.len() != tape.len() {
        return Err(Refusal::Length);
    }
    let size = group.size();
    change_each(tape, random, |_, byte| (u16::from(byte) % size) as u8);
    Ok(())
}
