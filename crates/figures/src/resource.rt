ghost use Rattle.std.specs.Prelude.{◌≡◌, ◌≤◌, unsigned_abs};
ghost use Rattle.figures.specs.Entries.{resource_key};
ghost use Rattle.figures.specs.Standing.{counts};
ghost use Rattle.figures.specs.Figures.{resource_energy, resource_uplift};

use crate::prices::prices_at;
use crate::standing::{Place, Resource, Unit};
use table::Keyed;

impl Keyed for Resource {
    type Key = u16;

    ghost key = { resource_key };

    fn key(&self) -> u16 {
        self.id
    }
}

impl Resource {
    // Whether it is the member's. Where no member is told, every resource counts.
    pub(crate) fn counts(&self, member: Option<u16>) -> bool
        ensures { result ≡ counts member self.now }
    {
        member.is_none_or(|id| self.member == id)
    }

    // Its energy lines, added up, in cents.
    pub fn energy(&self, places: &[Place]) -> i64
        ensures value { result ≡ resource_energy places.now self.now }
        ensures bound { unsigned_abs result ≤ 1440000000 }
    {
        self.hours.energy(&prices_at(places, self.place))
    }

    // What a generator is owed above its revenue, in cents. A load is owed nothing.
    pub fn uplift(&self, places: &[Place]) -> u64
        ensures value { result ≡ resource_uplift places.now self.now }
        ensures bound { result ≤ 1224000000 }
    {
        match self.unit {
            Unit::Generator(generator) => generator.uplift(
                &self.hours,
                &prices_at(places, self.place),
            ),
            Unit::Load => 0,
        }
    }
}
