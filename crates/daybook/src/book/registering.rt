ghost use Rattle.std.specs.Prelude.{◌≡◌, cond, [], ◌∷◌, length, is_some, Some, None, ◌==◌};
ghost use Rattle.std.specs.Option.{option_map};
ghost use Rattle.table.specs.Entries.{lookup};
ghost use Rattle.table.specs.Tables.{entries, room};
ghost use Rattle.refusal.specs.declared.cause.Refusal.TheVariants.{InUse, Full, DraftOut};
ghost use Rattle.figures.specs.Prices.{first};
ghost use Rattle.daybook.specs.Calls.{brings};
ghost use Rattle.daybook.specs.Changes.{replied, Answers};
ghost use Rattle.daybook.specs.Held.{held};
ghost use Rattle.daybook.specs.Records.{member as the_member, place as the-place, resource as the-resource};

use super::DayBook;
use crate::id::{Id, ResourceIds};
use figures::{Member, Place, Resource, Unit};
use refusal::{Kind, Refusal, Store};
use table::{Keyed, Table};

impl<'a> DayBook<'a> {
    // Whether a new entry may be registered in a table now.
    fn may_add<E: Keyed<Key = u16> + Copy>(
        &self,
        table: &Table<'_, E>,
        id: Id,
        kind: Kind,
    ) -> Result<(), Refusal>
        ensures { result ≡ replied (first (λ o. o) (cond (is_some (lookup E.key id.number (entries table.now))) (Some (InUse id.number kind)) None ∷ cond (length (entries table.now) == room table.now) (Some (Full (Store.Table kind))) None ∷ option_map DraftOut (held self.now).out ∷ [])) }
    {
        if table.get(id.number).is_some() {
            return Err(Refusal::InUse {
                id: id.number,
                kind,
            });
        }
        if table.is_full() {
            return Err(Refusal::Full {
                store: Store::Table(kind),
            });
        }
        self.no_draft_out()
    }

    // One function a table, here and in the next two: the book's ghost fields tie each table to the others in its own way.
    pub(crate) fn enter_member(&mut self, id: Id) -> Result<(), Refusal>
        ensures { Answers (brings (the_member id.number)) (held self.old) (held self.new) result }
    {
        self.may_add(&self.members, id, Kind::Member)?;
        let _ = self.members.insert(Member::new(id.number));
        Ok(())
    }

    pub(crate) fn enter_place(&mut self, id: Id) -> Result<(), Refusal>
        ensures { Answers (brings (the-place id.number)) (held self.old) (held self.new) result }
    {
        self.may_add(&self.places, id, Kind::Place)?;
        let _ = self.places.insert(Place::new(id.number));
        Ok(())
    }

    pub(crate) fn enter_resource(&mut self, ids: ResourceIds, unit: Unit) -> Result<(), Refusal>
        ensures { Answers (brings (the-resource ids.own.number ids.member.number ids.place.number unit)) (held self.old) (held self.new) result }
    {
        self.member(ids.member)?;
        self.place(ids.place)?;
        self.may_add(&self.resources, ids.own, Kind::Resource)?;
        let _ = self.resources.insert(Resource::new(
            ids.own.number,
            ids.member.number,
            ids.place.number,
            unit,
        ));
        Ok(())
    }
}
