ghost use Rattle.std.specs.Prelude.{◌≤◌, length, unsigned_abs};

use hours::{Day, HourRecord, Price};
use tariff::Generator;

mod entries;
mod lending;

// What a resource is registered as. No Option: a load is a thing with a name of its own, and not a generator that is missing.
#[derive(Clone, Copy)]
pub enum Unit {
    Generator(Generator),
    Load,
}

// A member's part in a draft, in cents: energy and uplift are paid to it, of each pot it bears a share. No term passes what
// a sharing rule takes.
#[derive(Clone, Copy)]
pub struct Terms {
    pub energy: i64,
    pub uplift: u64,
    pub uplift_share: u64,
    pub neutrality_share: i64,
    ghost own: { (unsigned_abs energy ≤ 50000000000) × (uplift ≤ 50000000000) },
    ghost shares: { (uplift_share ≤ 50000000000) × (unsigned_abs neutrality_share ≤ 50000000000) },
}

// A party that is paid or charged: the amount last stated to it, in cents, and its terms in the draft that is out, if that
// has them.
#[derive(Clone, Copy)]
pub struct Member {
    pub id: u16,
    pub stated: i64,
    pub drafted: Option<Terms>,
    ghost bound: { unsigned_abs stated ≤ 200000000000 },
}

// Where prices are set.
#[derive(Clone, Copy)]
pub struct Place {
    pub id: u16,
    pub prices: Day<Price>,
}

// A generator or a load: whose it is, where it lies, and its hour records.
#[derive(Clone, Copy)]
pub struct Resource {
    pub id: u16,
    pub member: u16,
    pub place: u16,
    pub unit: Unit,
    pub hours: Day<HourRecord>,
}

// An hour record that stands while its place has no price for the hour, which is 1 to 24.
#[derive(Clone, Copy)]
pub struct MissingPrice {
    pub resource: u16,
    pub hour: u8,
}

// The records that stand, lent for as long as they are added up. A pool has at most 32 resources.
#[derive(Clone, Copy)]
pub struct Standing<'a> {
    pub places: &'a [Place],
    pub resources: &'a [Resource],
    ghost few: { length resources.now ≤ 32 },
}
