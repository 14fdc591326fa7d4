ghost use Rattle.std.specs.Prelude.{◌≡◌, ◌≤◌, min, [], length, ◌==◌};
ghost use Rattle.table.specs.Entries.{position, lookup};
ghost use Rattle.table.specs.Tables.{entries, room};

use crate::key::{Keyed, Rank};
use crate::table::Table;

impl<'a, E> Table<'a, E> {
    // An empty table, whatever the slots hold.
    pub fn open(slots: &'a mut [E], limit: usize) -> Table<'a, E>
        ensures empty { entries result ≡ [] }
        ensures room { room result ≡ min limit (length slots.old) }
    {
        Table {
            slots,
            len: 0,
            limit,
        }
    }

    pub fn room(&self) -> usize
        ensures { result ≡ room self.now }
    {
        self.limit.min(self.slots.len())
    }

    pub fn len(&self) -> usize
        ensures reply { result ≡ length (entries self.now) }
        ensures within { result ≤ room self.now }
    {
        self.len.min(self.room())
    }

    // Whether it holds as many entries as it has room for.
    pub fn is_full(&self) -> bool
        ensures { result ≡ (length (entries self.now) == room self.now) }
    {
        self.len() == self.room()
    }

    pub fn all(&self) -> &[E]
        ensures { result.now ≡ entries self.now }
    {
        &self.slots[..self.len()]
    }
}

impl<'a, E: Keyed + Copy> Table<'a, E> {
    // From the front, and not by halves: this is promised of entries whose keys do not rise, too.
    pub fn find(&self, wanted: E::Key) -> Option<usize>
        ensures { result ≡ position E.key (E.Key.Rank.rank wanted) (entries self.now) }
    {
        self.all().iter().position(|row| row.key().same(&wanted))
    }

    pub fn get(&self, wanted: E::Key) -> Option<E>
        ensures { result ≡ lookup E.key (E.Key.Rank.rank wanted) (entries self.now) }
    {
        self.all()
            .iter()
            .find(|row| row.key().same(&wanted))
            .copied()
    }
}
