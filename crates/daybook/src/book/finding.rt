ghost use Rattle.std.specs.Prelude.{◌≡◌, Bool, IfOk, Some};
ghost use Rattle.std.specs.Option.{option_map, ok_or};
ghost use Rattle.table.specs.Entries.{lookup};
ghost use Rattle.table.specs.Tables.{entries};
ghost use Rattle.refusal.specs.declared.cause.Refusal.TheVariants.{NotRegistered, DraftOut};
ghost use Rattle.figures.specs.Entries.{member_key, place_key, resource_key};
ghost use Rattle.figures.specs.declared.standing.Unit.{Unit as Sort};
ghost use Rattle.daybook.specs.Changes.{replied};
ghost use Rattle.daybook.specs.Finding.{found_as, Tells};
ghost use Rattle.daybook.specs.Held.{held};

use super::DayBook;
use crate::id::Id;
use figures::{Member, Place, Resource, Unit};
use refusal::{Kind, Refusal};
use table::{Keyed, Table};

pub(crate) fn not_registered(id: Id, kind: Kind) -> Refusal
    ensures { result ≡ NotRegistered id.number kind }
{
    Refusal::NotRegistered {
        id: id.number,
        kind,
    }
}

fn found<E: Keyed<Key = u16> + Copy>(table: &Table<'_, E>, id: Id, kind: Kind) -> Result<E, Refusal>
    ensures { result ≡ ok_or (lookup E.key id.number (entries table.now)) (NotRegistered id.number kind) }
{
    table.get(id.number).ok_or(not_registered(id, kind))
}

// Each table with the kind that its entries are registered as.
impl<'a> DayBook<'a> {
    pub(crate) fn member(&self, id: Id) -> Result<Member, Refusal>
        ensures { result ≡ ok_or (lookup member_key id.number (held self.now).members) (NotRegistered id.number Kind.Member) }
    {
        found(&self.members, id, Kind::Member)
    }

    pub(crate) fn place(&self, id: Id) -> Result<Place, Refusal>
        ensures { result ≡ ok_or (lookup place_key id.number (held self.now).places) (NotRegistered id.number Kind.Place) }
    {
        found(&self.places, id, Kind::Place)
    }

    // A generator or a load.
    pub(crate) fn resource(&self, id: Id) -> Result<Resource, Refusal>
        ensures { result ≡ ok_or (lookup resource_key id.number (held self.now).resources) (NotRegistered id.number Kind.Resource) }
    {
        found(&self.resources, id, Kind::Resource)
    }

    // The resource, if it is of the kind that is meant: a load is no generator.
    pub(crate) fn resource_as<F: Fn(Unit) -> bool>(
        &self,
        id: Id,
        meant: F,
    ) -> Result<Resource, Refusal>
        requires { F.IsAlwaysCallable meant }
        ensures there { IfOk result (λ r. lookup resource_key id.number (held self.now).resources ≡ Some r) }
        ensures value { (kind : Sort → Bool) → Tells (F.post meant) kind → result ≡ found_as kind id.number (lookup resource_key id.number (held self.now).resources) }
    {
        // Matched: in a chain `filter` and `ok_or` would each move a whole resource, with its day.
        match self.resources.get(id.number) {
            Some(resource) if meant(resource.unit) => Ok(resource),
            _ => Err(not_registered(id, Kind::Resource)),
        }
    }

    pub(crate) fn no_draft_out(&self) -> Result<(), Refusal>
        ensures { result ≡ replied (option_map DraftOut (held self.now).out) }
    {
        self.out
            .map_or(Ok(()), |draft| Err(Refusal::DraftOut { draft }))
    }
}
