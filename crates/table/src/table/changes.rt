ghost use Rattle.std.specs.Prelude.{◌≡◌, ℕ, map, is_some, is_ok};
ghost use Rattle.table.specs.Entries.{lookup, replaced, same_keys, Rising};
ghost use Rattle.table.specs.Tables.{entries, room, insert_reply, insert_after, rewritten, lookup_after};

use crate::key::Keyed;
use crate::table::slots::{insert_at, place, put, put_front, same_keys};
use crate::table::{Refused, Table};

impl<'a, E: Keyed + Copy> Table<'a, E> {
    pub fn insert(&mut self, item: E) -> Result<(), Refused>
        ensures reply { result ≡ insert_reply E.key item (entries self.old) (room self.old) }
        ensures after { entries self.new ≡ insert_after E.key item (entries self.old) (room self.old) }
        ensures lookups { (k : ℕ) → lookup E.key k (entries self.new) ≡ lookup_after E.key (is_ok result) item (entries self.old) k }
        ensures keeps { Rising E.key (entries self.old) → Rising E.key (entries self.new) }
        ensures room { room self.new ≡ room self.old }
    {
        if self.find(item.key()).is_some() {
            return Err(Refused::InUse);
        }
        if self.is_full() {
            return Err(Refused::Full);
        }
        let len = self.len();
        let at = place(self.all(), item);
        insert_at(self.slots, at, len, item);
        self.len = len + 1;
        Ok(())
    }

    // The entry that has the key of this one is exchanged for it.
    pub fn replace(&mut self, item: E) -> bool
        ensures reply { result ≡ is_some (lookup E.key (E.key item) (entries self.old)) }
        ensures after { entries self.new ≡ replaced E.key item (entries self.old) }
        ensures lookups { (k : ℕ) → lookup E.key k (entries self.new) ≡ lookup_after E.key result item (entries self.old) k }
        ensures keys { map E.key (entries self.new) ≡ map E.key (entries self.old) }
        ensures keeps { Rising E.key (entries self.old) → Rising E.key (entries self.new) }
        ensures room { room self.new ≡ room self.old }
    {
        let Some(at) = self.find(item.key()) else {
            return false;
        };
        put(self.slots, at, item);
        true
    }

    // All entries are exchanged for others that have the same keys.
    pub fn overwrite(&mut self, others: &[E]) -> bool
        ensures reply { result ≡ same_keys E.key others.now (entries self.old) }
        ensures after { entries self.new ≡ rewritten E.key others.now (entries self.old) }
        ensures keys { map E.key (entries self.new) ≡ map E.key (entries self.old) }
        ensures keeps { Rising E.key (entries self.old) → Rising E.key (entries self.new) }
        ensures room { room self.new ≡ room self.old }
    {
        if !same_keys(others, self.all()) {
            return false;
        }
        put_front(self.slots, others);
        true
    }
}
