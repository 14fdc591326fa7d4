ghost use Rattle.std.specs.Prelude.{◌≡◌, ◌≤◌, length, IfSome, slice_get};
ghost use Rattle.figures.specs.Entries.{ids_of_members};
ghost use Rattle.figures.specs.Figures.{member_row};
ghost use Rattle.figures.specs.Owners.{member_rows, RowsOfAll};
ghost use Rattle.figures.specs.Rolls.{members_in, roll_seen, roll_of, listed};
ghost use Rattle.figures.specs.Standing.{resources_in};

use super::{Roll, Rows};
use crate::standing::{Member, Standing};
use sharing::MemberRow;
use std::array;

// A pool has no more.
const MOST_MEMBERS: usize = 16;

// What lies behind the rows that count.
const NOBODY: MemberRow = MemberRow {
    id: 0,
    demand: 0,
    deviation: 0,
};

impl Rows {
    pub fn as_slice(&self) -> &[MemberRow]
        ensures value { result.now ≡ listed self.now }
        ensures few { length result.now ≤ 16 }
    {
        &self.items[..self.count]
    }
}

impl<'a> Roll<'a> {
    // Nothing where there are more members than a pool has.
    pub fn new(members: &'a [Member], standing: Standing<'a>) -> Option<Roll<'a>>
        ensures { roll_seen result ≡ roll_of members.now standing.entry }
    {
        // Tested here, as in `Standing::new`: what is made differs, and so does what its type asks.
        if members.len() > MOST_MEMBERS {
            return None;
        }
        Some(Roll { members, standing })
    }

    // The row of the member at a place, behind the last nobody's. Matched, since of what a closure of `map_or` answers here
    // a proof learns nothing.
    fn row_at(&self, i: usize) -> MemberRow
        ensures { IfSome (slice_get (members_in self.now) i) (λ m. result ≡ member_row (resources_in self.now.standing) m.id) }
    {
        match self.members.get(i) {
            Some(member) => self.standing.row_of(member.id),
            None => NOBODY,
        }
    }

    // The row of each member, in their order.
    pub fn rows(&self) -> Rows
        ensures value { listed result ≡ member_rows (resources_in self.now.standing) (ids_of_members (members_in self.now)) }
        ensures together { RowsOfAll (resources_in self.now.standing) }
    {
        let items = array::from_fn(|i| self.row_at(i));
        Rows {
            items,
            count: self.members.len(),
        }
    }
}
