ghost use Rattle.std.specs.Prelude.{◌≡◌, ◌+◌, ◌^◌, ◌<◌, IfErr};
ghost use Rattle.daybook.specs.Readings.{id_of, id_from, read, behind};
ghost use Rattle.daybook.specs.Calls.{ids_from, slot_from};
ghost use Rattle.daybook.specs.Parts.{slot_parts, ids_parts};

use super::{Id, ResourceIds, Slot};
use hours::{Field, Hour, OutOfRange, check};
use refusal::Refusal;

// What some numbers were read as, or the refusal of one of them; `before` others were handed in first.
pub(crate) fn behind<T>(before: usize, made: Result<T, OutOfRange>) -> Result<T, Refusal>
    requires { IfErr made (λ e. before + e.field < 2 ^ 64) }
    ensures { result ≡ behind before made }
{
    made.map_err(|e| Refusal::FieldOutOfRange {
        field: before + e.field,
    })
}

impl Id {
    pub fn new(number: i64) -> Result<Id, OutOfRange>
        ensures { result ≡ id_of number }
    {
        check(&[Field(number, 1, 65_535)])?;
        Ok(Id {
            number: number as u16,
        })
    }

    // The first number of a call.
    pub(crate) fn read(number: i64) -> Result<Id, Refusal>
        ensures { result ≡ read (id_from number) }
    {
        behind(0, Id::new(number))
    }
}

impl Slot {
    pub(crate) fn read(id: i64, hour: i64) -> Result<Slot, Refusal>
        ensures { slot_parts result ≡ read (slot_from id hour) }
    {
        let id = Id::read(id)?;
        let hour = behind(1, Hour::new(hour))?;
        Ok(Slot { id, hour })
    }
}

impl ResourceIds {
    pub(crate) fn read(own: i64, member: i64, place: i64) -> Result<ResourceIds, Refusal>
        ensures { ids_parts result ≡ read (ids_from own member place) }
    {
        let own = Id::read(own)?;
        let member = behind(1, Id::new(member))?;
        let place = behind(2, Id::new(place))?;
        Ok(ResourceIds { own, member, place })
    }
}
