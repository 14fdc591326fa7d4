ghost use Rattle.std.specs.Prelude.{◌≡◌, true};
ghost use Rattle.table.specs.Entries.{replaced};
ghost use Rattle.figures.specs.Entries.{place_key, resource_key, ids_of_members, ids_of_places, is_generator};
ghost use Rattle.figures.specs.Owners.{among};
ghost use Rattle.daybook.specs.Calls.{brings, takes};
ghost use Rattle.daybook.specs.Changes.{Answers};
ghost use Rattle.daybook.specs.Due.{is_load};
ghost use Rattle.daybook.specs.Finding.{Tells};
ghost use Rattle.daybook.specs.Held.{held, with_places, with_resources};
ghost use Rattle.daybook.specs.Numbers.{has_whole_prices, has_whole_hours};
ghost use Rattle.daybook.specs.Records.{price as the-price, generator_hour as generators_hour, load_hour as loads_hour};

use super::DayBook;
use crate::id::Slot;
use figures::{Place, Resource, Unit};
use hours::{HourRecord, Price};
use refusal::Refusal;

impl<'a> DayBook<'a> {
    pub(crate) fn enter_price(&mut self, slot: Slot, price: Price) -> Result<(), Refusal>
        ensures { Answers (brings (the-price slot.id.number slot.hour price)) (held self.old) (held self.new) result }
    {
        let mut found = self.place(slot.id)?;
        self.no_draft_out()?;
        found.prices.set(slot.hour, price);
        self.keep_place(found);
        Ok(())
    }

    // An hour record for a resource of the kind that is meant.
    pub(crate) fn enter_hour<F: Fn(Unit) -> bool>(
        &mut self,
        slot: Slot,
        record: HourRecord,
        meant: F,
    ) -> Result<(), Refusal>
        requires { F.IsAlwaysCallable meant }
        ensures generators { Tells (F.post meant) is_generator → Answers (brings (generators_hour slot.id.number slot.hour «record»)) (held self.old) (held self.new) result }
        ensures loads { Tells (F.post meant) is_load → Answers (brings (loads_hour slot.id.number slot.hour «record»)) (held self.old) (held self.new) result }
    {
        let mut found = self.resource_as(slot.id, meant)?;
        self.no_draft_out()?;
        found.hours.set(slot.hour, record);
        self.keep_resource(found);
        Ok(())
    }

    pub(crate) fn take_hour(&mut self, slot: Slot) -> Result<(), Refusal>
        ensures { Answers (takes slot.id.number slot.hour) (held self.old) (held self.new) result }
    {
        let found = self.resource(slot.id)?;
        self.no_draft_out()?;
        let mut left = found;
        left.hours
            .strike(slot.hour)
            .ok_or(Refusal::NothingToStrike {
                resource: slot.id.number,
                hour: slot.hour.number,
            })?;
        self.keep_resource(left);
        Ok(())
    }

    // A place of the book with other prices. Apart from the next, since what the book's ghost fields ask of it differs.
    fn keep_place(&mut self, place: Place)
        requires { has_whole_prices place ≡ true }
        ensures { held self.new ≡ with_places (held self.old) (replaced place_key place (held self.old).places) }
    {
        self.places.replace(place);
    }

    // A resource of the book with other hour records.
    fn keep_resource(&mut self, resource: Resource)
        requires owned { among (ids_of_members (held self.old).members) resource.member ≡ true }
        requires placed { among (ids_of_places (held self.old).places) resource.place ≡ true }
        requires whole { has_whole_hours resource ≡ true }
        ensures { held self.new ≡ with_resources (held self.old) (replaced resource_key resource (held self.old).resources) }
    {
        self.resources.replace(resource);
    }
}
