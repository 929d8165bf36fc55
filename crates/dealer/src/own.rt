// The masks of a party's own input wires.
ghost use Rattle.std.specs.Prelude.{◌≡◌, ◌≤◌, length, take};
ghost use Rattle.model.specs.Deal.{owned, own_masks};

// Copies the masks of the input wires that `party` owns, in order, to the front of `part`. Differences are copied by it too, so that
// it takes a list and not `Masked`.
pub(crate) fn copy_own(owners: &[u8], masks: &[u8], party: u8, part: &mut [u8])
    requires masks { length owners.now ≤ length masks.now }
    requires room { owned party owners.now ≤ length part.old }
    ensures { take (owned party owners.now) part.new ≡ own_masks party owners.now masks.now }
{
    let mut slot = 0;
    // A plain loop: with an iterator that filters the owners beside their masks, PART took up to twice the time where there are many
    // inputs and little else.
    for (i, owner) in owners.iter().enumerate() {
        if *owner == party {
            part[slot] = masks[i];
            slot += 1;
        }
    }
}
