// The blocks of the other parties, one after another.
ghost use Rattle.std.specs.Prelude.{◌≡◌, ◌/◌, ◌<◌, length};
ghost use Rattle.groups.specs.Total.{total};
ghost use Rattle.model.specs.Words.{each};
ghost use Rattle.model.specs.Deal.{column};
ghost use Rattle.model.specs.Tape.{pieces};

use crate::changes::change_each;
use groups::masks::MaskGroup;

// Writes to each place of a block what the shares of its column come to in the blocks of the others.
pub(crate) fn sum_others<G: MaskGroup>(group: &G, others: &[u8], block: &mut [u8])
    requires { 0 < length block.old }
    ensures { block.new ≡ each (length block.old) (λ k. total (G.means group.now) (column (pieces (length others.now / length block.old) (length block.old) others.now) k)) }
{
    block.fill(0);
    // A block at a time, not a column at a time, so that memory is read in its order.
    for other in others.chunks_exact(block.len()) {
        change_each(block, other, |sum, share| group.add(sum, share));
    }
}
