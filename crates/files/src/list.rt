// A list in lent places.
ghost use Rattle.std.specs.Prelude.{◌≡◌, ◌+◌, ◌<◌, ◌≤◌, List, [], ◌∷◌, ◌++◌, length, slice_set, MatchResult};
ghost use Rattle.std.specs.Iterator.{IsFinite, Yields, Drains};
ghost use Rattle.files.specs.Lists.{Extends};

/// A list of at most as many elements as there are places lent to it.
// A rule of the project asks for this form: gate records and output numbers share one list, whose methods pass its slice to
// functions.
#[derive(Drop)]
pub struct BoundedList<'a, T> {
    places: &'a mut [T],
    len: usize,
}

/// Each place is taken.
#[derive(Clone, Copy)]
pub struct Full;

// Writes to a place, if there is such a place.
fn put<T: Copy>(places: &mut [T], at: usize, x: T) -> Result<(), Full>
    ensures wrote { places.new ≡ slice_set places.old at x }
    ensures room { MatchResult result (λ _. at < length places.old) (λ _. length places.old ≤ at) }
{
    if at < places.len() {
        places[at] = x;
        Ok(())
    } else {
        Err(Full)
    }
}

impl<'a, T: Copy> BoundedList<'a, T> {
    /// The empty list over these places.
    pub fn new(places: &'a mut [T]) -> BoundedList<'a, T>
        ensures len { result.len ≡ 0 }
        ensures same { result.places.ghost_name ≡ places.entry.ghost_name }
        ensures kept { result.places.now ≡ places.old }
    {
        BoundedList { places, len: 0 }
    }

    /// One element more at the end. Where each place is taken, nothing changes.
    pub fn push(&mut self, x: T) -> Result<(), Full>
        ensures room { MatchResult result (λ _. (self.old.len < length self.old.places.now) × (self.new.len ≡ self.old.len + 1)) (λ _. (length self.old.places.now ≤ self.old.len) × (self.new.len ≡ self.old.len)) }
        ensures wrote { self.new.places.now ≡ slice_set self.old.places.now self.old.len x }
        ensures width { length self.new.places.now ≡ length self.old.places.now }
        ensures same { self.new.places.ghost_name ≡ self.old.places.ghost_name }
    {
        put(self.places, self.len, x)?;
        self.len += 1;
        Ok(())
    }

    /// The elements that an iterator gives, at the end: all, or as many as there are places for.
    pub fn extend<I: Iterator<Item = T> + Drop>(&mut self, items: I) -> Result<(), Full>
        requires can { I.can_next items }
        requires ends { IsFinite (I.remaining items) }
        ensures adds { (xs : List T) × Extends self.old.places.now self.old.len self.new.places.now self.new.len xs × MatchResult result (λ _. Drains I.next_gives items xs) (λ _. (length self.old.places.now ≤ self.new.len) × ((y : T) × (t : I) × Yields I.next_gives items (xs ++ y ∷ []) t)) }
        ensures same { self.new.places.ghost_name ≡ self.old.places.ghost_name }
    {
        for x in items {
            self.push(x)?;
        }
        Ok(())
    }
}
