ghost use Rattle.std.specs.Prelude.{◌≡◌, length};
ghost use Rattle.daybook.specs.Held.{held, opened};

use super::DayBook;
use figures::{Member, Place, Resource};
use table::Table;

// A pool has no more.
const MOST_MEMBERS: usize = 16;

const MOST_PLACES: usize = 16;

const MOST_RESOURCES: usize = 32;

impl<'a> DayBook<'a> {
    // Nothing is registered, whatever the lent memory holds; each table has room for as many entries as it is lent, up to
    // what a pool has.
    pub fn open(
        day: u32,
        members: &'a mut [Member],
        places: &'a mut [Place],
        resources: &'a mut [Resource],
    ) -> DayBook<'a>
        ensures { held result ≡ opened day (length members.old) (length places.old) (length resources.old) }
    {
        DayBook {
            day,
            members: Table::open(members, MOST_MEMBERS),
            places: Table::open(places, MOST_PLACES),
            resources: Table::open(resources, MOST_RESOURCES),
            out: None,
            used: 0,
        }
    }
}
