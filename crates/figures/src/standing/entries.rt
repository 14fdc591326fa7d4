ghost use Rattle.std.specs.Prelude.{◌≡◌};
ghost use Rattle.figures.specs.Entries.{new_member, new_place, new_resource, vacant_resource, generator_in, is_generator};

use super::{Member, Place, Resource, Unit};
use hours::Day;
use tariff::Generator;

impl Member {
    // Nothing was stated to it yet.
    pub fn new(id: u16) -> Member
        ensures { result ≡ new_member id }
    {
        Member {
            id,
            stated: 0,
            drafted: None,
        }
    }

    // Fills a table's memory before it is lent.
    pub fn vacant() -> Member
        ensures { result ≡ new_member 0 }
    {
        Member::new(0)
    }
}

impl Place {
    // Without prices.
    pub fn new(id: u16) -> Place
        ensures { result ≡ new_place id }
    {
        Place {
            id,
            prices: Day::empty(),
        }
    }

    pub fn vacant() -> Place
        ensures { result ≡ new_place 0 }
    {
        Place::new(0)
    }
}

impl Unit {
    // A load has none.
    pub fn generator(self) -> Option<Generator>
        ensures { result ≡ generator_in self }
    {
        match self {
            Unit::Generator(generator) => Some(generator),
            Unit::Load => None,
        }
    }

    pub fn is_generator(self) -> bool
        ensures { result ≡ is_generator self }
    {
        matches!(self, Unit::Generator(_))
    }
}

impl Resource {
    // Without hour records.
    pub fn new(id: u16, member: u16, place: u16, unit: Unit) -> Resource
        ensures { result ≡ new_resource id member place unit }
    {
        Resource {
            id,
            member,
            place,
            unit,
            hours: Day::empty(),
        }
    }

    pub fn vacant() -> Resource
        ensures { result ≡ vacant_resource }
    {
        Resource::new(0, 0, 0, Unit::Load)
    }
}
