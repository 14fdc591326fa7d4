ghost use Rattle.std.specs.Prelude.{◌≡◌, ◌+◌, ◌<◌, ◌≤◌, ◌∷◌, ◌++◌, length, take, drop, slice_set};
ghost use Rattle.table.specs.Entries.{inserted, same_keys};

use crate::key::{Keyed, Rank};

// Where an entry goes: before the first whose key is not below its own, in whatever order the entries stand.
pub(crate) fn place<E: Keyed + Copy>(rows: &[E], item: E) -> usize
    ensures within { result ≤ length rows.now }
    ensures splits { inserted E.key item rows.now ≡ take result rows.now ++ (item ∷ drop result rows.now) }
{
    let key = item.key();
    rows.iter().take_while(|row| row.key().below(&key)).count()
}

// The slots from `at` on, up to `len`, move up by one.
pub(crate) fn insert_at<E: Copy>(slots: &mut [E], at: usize, len: usize, item: E)
    requires { (at ≤ len) × (len < length slots.old) }
    ensures { take (len + 1) slots.new ≡ take at (take len slots.old) ++ (item ∷ drop at (take len slots.old)) }
{
    slots.copy_within(at..len, at + 1);
    slots[at] = item;
}

// `put` and `put_front` take the slots alone. Copied into through a table's field, nothing is known of them but their number,
// and before an entry is written there, a proof asks for an idle call of `all`.
pub(crate) fn put<E: Copy>(slots: &mut [E], at: usize, item: E)
    requires { at < length slots.old }
    ensures { slots.new ≡ slice_set slots.old at item }
{
    slots[at] = item;
}

pub(crate) fn put_front<E: Copy>(slots: &mut [E], rows: &[E])
    requires { length rows.now ≤ length slots.old }
    ensures { slots.new ≡ rows.now ++ drop (length rows.now) slots.old }
{
    slots[..rows.len()].copy_from_slice(rows);
}

pub(crate) fn same_keys<E: Keyed>(rows: &[E], others: &[E]) -> bool
    ensures { result ≡ same_keys E.key rows.now others.now }
{
    rows.len() == others.len()
        && rows
            .iter()
            .zip(others)
            .all(|(row, other)| row.key().same(&other.key()))
}
