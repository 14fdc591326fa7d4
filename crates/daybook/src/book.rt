ghost use Rattle.std.specs.Prelude.{◌≡◌, ◌≤◌, true, map};
ghost use Rattle.table.specs.Entries.{Rising};
ghost use Rattle.table.specs.Tables.{entries, room};
ghost use Rattle.figures.specs.Entries.{member_key, place_key, resource_key, ids_of_members, ids_of_places};
ghost use Rattle.figures.specs.Named.{all_members, all_placed};
ghost use Rattle.daybook.specs.Numbers.{every, all_ids, has_whole_prices, has_whole_hours, draft_fits};

use figures::{Member, Place, Resource};
use table::Table;

mod calls;
mod finding;
mod generators;
mod opening;
mod posting;
mod questions;
mod registering;

// The settlement of one trading day of one pool. Its tables are kept by rising id in memory that the caller lends.
#[derive(Drop)]
pub struct DayBook<'a> {
    pub(crate) day: u32,
    pub(crate) members: Table<'a, Member>,
    pub(crate) places: Table<'a, Place>,
    pub(crate) resources: Table<'a, Resource>,
    // the number of the draft that is out
    pub(crate) out: Option<u16>,
    // how many draft numbers are used
    pub(crate) used: u16,
    ghost members_rise: { Rising member_key (entries members) },
    ghost places_rise: { Rising place_key (entries places) },
    ghost resources_rise: { Rising resource_key (entries resources) },
    ghost owned: { all_members (ids_of_members (entries members)) (entries resources) ≡ true },
    ghost placed: { all_placed (ids_of_places (entries places)) (entries resources) ≡ true },
    ghost member_ids: { all_ids (ids_of_members (entries members)) ≡ true },
    ghost place_ids: { all_ids (ids_of_places (entries places)) ≡ true },
    ghost resource_ids: { all_ids (map resource_key (entries resources)) ≡ true },
    ghost prices_whole: { every has_whole_prices (entries places) ≡ true },
    ghost hours_whole: { every has_whole_hours (entries resources) ≡ true },
    ghost rooms: { (room members ≤ 16) × (room places ≤ 16) × (room resources ≤ 32) },
    ghost numbers: { draft_fits out used ≡ true },
}
