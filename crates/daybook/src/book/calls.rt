ghost use Rattle.std.specs.Prelude.{ℤ};
ghost use Rattle.daybook.specs.Calls.{register_member, register_place, register_generator, register_load, post_price, post_generator_hour, post_load_hour, strike as to-strike};
ghost use Rattle.daybook.specs.Changes.{Follows};
ghost use Rattle.daybook.specs.Held.{held};
ghost use Rattle.daybook.specs.Laws.{Recorded, SecondCounts, AsIfNever};

use super::DayBook;
use crate::id::{Id, ResourceIds, Slot, behind};
use figures::Unit;
use hours::{HourRecord, Price};
use refusal::Refusal;
use tariff::{Generator, GeneratorForm};

// Registering.
impl<'a> DayBook<'a> {
    pub fn register_member(&mut self, id: i64) -> Result<(), Refusal>
        ensures follows { Follows (register_member id) (held self.old) (held self.new) result }
        ensures law { Recorded (register_member id) (held self.old) (held self.new) result }
    {
        let id = Id::read(id)?;
        self.enter_member(id)
    }

    pub fn register_place(&mut self, id: i64) -> Result<(), Refusal>
        ensures follows { Follows (register_place id) (held self.old) (held self.new) result }
        ensures law { Recorded (register_place id) (held self.old) (held self.new) result }
    {
        let id = Id::read(id)?;
        self.enter_place(id)
    }

    pub fn register_generator(
        &mut self,
        id: i64,
        member: i64,
        place: i64,
        form: &GeneratorForm,
    ) -> Result<(), Refusal>
        ensures follows { Follows (register_generator id member place form.now) (held self.old) (held self.new) result }
        ensures law { Recorded (register_generator id member place form.now) (held self.old) (held self.new) result }
    {
        let ids = ResourceIds::read(id, member, place)?;
        let generator = behind(3, Generator::register(form))?;
        self.enter_resource(ids, Unit::Generator(generator))
    }

    pub fn register_load(&mut self, id: i64, member: i64, place: i64) -> Result<(), Refusal>
        ensures follows { Follows (register_load id member place) (held self.old) (held self.new) result }
        ensures law { Recorded (register_load id member place) (held self.old) (held self.new) result }
    {
        let ids = ResourceIds::read(id, member, place)?;
        self.enter_resource(ids, Unit::Load)
    }
}

// Posting and striking. What is posted takes the place of what was posted for that hour before.
impl<'a> DayBook<'a> {
    pub fn post_price(
        &mut self,
        place: i64,
        hour: i64,
        day_ahead: i64,
        real_time: i64,
    ) -> Result<(), Refusal>
        ensures follows { Follows (post_price place hour day_ahead real_time) (held self.old) (held self.new) result }
        ensures law { Recorded (post_price place hour day_ahead real_time) (held self.old) (held self.new) result }
        ensures again { (da rt : ℤ) → SecondCounts (post_price place hour da rt) (post_price place hour day_ahead real_time) (held self.old) (held self.new) result }
    {
        let slot = Slot::read(place, hour)?;
        let price = behind(2, Price::new(day_ahead, real_time))?;
        self.enter_price(slot, price)
    }

    pub fn post_generator_hour(
        &mut self,
        resource: i64,
        hour: i64,
        day_ahead: i64,
        meter: i64,
        self_schedule: i64,
        commit: i64,
    ) -> Result<(), Refusal>
        ensures follows { Follows (post_generator_hour resource hour day_ahead meter self_schedule commit) (held self.old) (held self.new) result }
        ensures law { Recorded (post_generator_hour resource hour day_ahead meter self_schedule commit) (held self.old) (held self.new) result }
        ensures again { (da mw own on : ℤ) → SecondCounts (post_generator_hour resource hour da mw own on) (post_generator_hour resource hour day_ahead meter self_schedule commit) (held self.old) (held self.new) result }
    {
        let slot = Slot::read(resource, hour)?;
        let posted = HourRecord::of_generator(day_ahead, meter, self_schedule, commit);
        let record = behind(2, posted)?;
        self.enter_hour(slot, record, |unit| unit.is_generator())
    }

    pub fn post_load_hour(
        &mut self,
        resource: i64,
        hour: i64,
        day_ahead: i64,
        meter: i64,
    ) -> Result<(), Refusal>
        ensures follows { Follows (post_load_hour resource hour day_ahead meter) (held self.old) (held self.new) result }
        ensures law { Recorded (post_load_hour resource hour day_ahead meter) (held self.old) (held self.new) result }
        ensures again { (da mw : ℤ) → SecondCounts (post_load_hour resource hour da mw) (post_load_hour resource hour day_ahead meter) (held self.old) (held self.new) result }
    {
        let slot = Slot::read(resource, hour)?;
        let record = behind(2, HourRecord::of_load(day_ahead, meter))?;
        self.enter_hour(slot, record, |unit| !unit.is_generator())
    }

    // The hour record goes, as if it had never been posted.
    pub fn strike(&mut self, resource: i64, hour: i64) -> Result<(), Refusal>
        ensures follows { Follows (to-strike resource hour) (held self.old) (held self.new) result }
        ensures law { Recorded (to-strike resource hour) (held self.old) (held self.new) result }
        ensures never { AsIfNever resource hour (held self.old) (held self.new) result }
    {
        let slot = Slot::read(resource, hour)?;
        self.take_hour(slot)
    }
}
