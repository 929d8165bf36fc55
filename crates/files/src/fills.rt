// Gate records and output numbers, written to lent places.
ghost use Rattle.std.specs.Prelude.{◌≡◌, ◌*◌, ◌≤◌, length, take, drop};
ghost use Rattle.files.specs.Gates.{gates_of};
ghost use Rattle.files.specs.Format.{gate_entries, known, numbers};

use crate::entries::Entries;
use crate::gate::Gate;
use crate::list::BoundedList;

// Writes the gates of a section to the first places; the others stay.
// It is kept apart from READ, so that its loop has the registers to itself.
#[inline(never)]
pub(crate) fn fill_gates(bytes: &[u8], places: &mut [Gate])
    requires { length bytes.now ≤ 5 * length places.old }
    ensures filled { gates_of (take (length (known (gate_entries bytes.now))) places.new) ≡ known (gate_entries bytes.now) }
    ensures spare { drop (length (known (gate_entries bytes.now))) places.new ≡ drop (length (known (gate_entries bytes.now))) places.old }
{
    let mut list = BoundedList::new(places);
    let _ = list.extend(Entries::new(bytes).filter_map(|entry| entry));
}

// Writes the numbers of a section to the first places; the others stay.
pub(crate) fn fill_numbers(bytes: &[u8], places: &mut [u16])
    requires { length bytes.now ≤ 2 * length places.old }
    ensures filled { take (length (numbers bytes.now)) places.new ≡ numbers bytes.now }
    ensures spare { drop (length (numbers bytes.now)) places.new ≡ drop (length (numbers bytes.now)) places.old }
{
    let (pairs, _) = bytes.as_chunks::<2>();
    let mut list = BoundedList::new(places);
    let _ = list.extend(pairs.iter().map(|pair| u16::from_le_bytes(*pair)));
}
