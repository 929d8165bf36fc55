// Places that are changed by the numbers at the same places of another list.
ghost use Rattle.std.specs.Prelude.{ℕ, ◌<◌, ◌≤◌, length};
ghost use Rattle.model.specs.Words.{at};

// Puts in each place what `change` makes of it and of the number at the same place of `numbers`.
pub(crate) fn change_each<F: Fn(u8, u8) -> u8>(places: &mut [u8], numbers: &[u8], change: F)
    requires calls { F.IsAlwaysCallable change }
    requires numbers { length places.old ≤ length numbers.now }
    ensures { (k : ℕ) → k < length places.old → F.post change (at places.old k) (at numbers.now k) (at places.new k) }
{
    // By the place's number: nothing is known of what a loop over `places.iter_mut().zip(numbers)` wrote.
    for (k, place) in places.iter_mut().enumerate() {
        *place = change(*place, numbers[k]);
    }
}
