// The block of a party.
ghost use Rattle.std.specs.Prelude.{◌≡◌, ◌-◌, ◌*◌, ◌<◌, [], length, slice_index_or};
ghost use Rattle.model.specs.Deal.{columns};
ghost use Rattle.model.specs.Tape.{pieces};
ghost use Rattle.circuits.specs.Circuits.{net};
ghost use Rattle.dealer.specs.Parts.{last_block, blocks};

use crate::masked::Masked;
use crate::shares::sum_others;
use groups::masks::MaskGroup;

impl<G: MaskGroup> Masked<'_, G> {
    // Writes the block of the last party: what the blocks of the others, which stand one after another, lack.
    fn complete(&self, dealt: &[u8], block: &mut [u8])
        requires dealt { length dealt.now ≡ ((net self.now.over.now.circuit.now).parties - 1) * columns (net self.now.over.now.circuit.now) }
        requires places { length block.old ≡ columns (net self.now.over.now.circuit.now) }
        ensures { let circuit = net self.now.over.now.circuit.now in block.new ≡ last_block (G.means self.now.over.now.group.now) circuit self.now.masks.now (pieces (circuit.parties - 1) (columns circuit) dealt.now) }
    {
        sum_others(self.over.group, dealt, block);
        self.write_lacking(block);
    }

    // Writes the block of `party`: its piece of what was dealt, or for the last party, which has none, what the pieces lack.
    // How long it is is asked for, and is no fact of a type, since it is lent to be written to.
    pub(crate) fn write_block(&self, dealt: &[u8], party: u8, block: &mut [u8])
        requires dealt { length dealt.now ≡ ((net self.now.over.now.circuit.now).parties - 1) * columns (net self.now.over.now.circuit.now) }
        requires party { party < (net self.now.over.now.circuit.now).parties }
        requires places { length block.old ≡ columns (net self.now.over.now.circuit.now) }
        ensures { block.new ≡ slice_index_or (blocks (G.means self.now.over.now.group.now) (net self.now.over.now.circuit.now) self.now.masks.now dealt.now) party [] }
    {
        match dealt.chunks_exact(block.len()).nth(usize::from(party)) {
            Some(piece) => block.copy_from_slice(piece),
            None => self.complete(dealt, block),
        }
    }
}
