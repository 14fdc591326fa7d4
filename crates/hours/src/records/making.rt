ghost use Rattle.std.specs.Prelude.{◌≡◌};
ghost use Rattle.hours.specs.Days.{zeros, counted};
ghost use Rattle.hours.specs.Records.{generator_hour, load_hour};

use super::HourRecord;
use crate::range::{Field, OutOfRange, check};

// kWh in an hour
const MOST_ENERGY: i64 = 100_000;

impl HourRecord {
    pub fn of_generator(
        day_ahead: i64,
        meter: i64,
        self_schedule: i64,
        commit: i64,
    ) -> Result<HourRecord, OutOfRange>
        ensures { result ≡ generator_hour day_ahead meter self_schedule commit }
    {
        check(&[
            Field(day_ahead, 0, MOST_ENERGY),
            Field(meter, -MOST_ENERGY, MOST_ENERGY),
            Field(self_schedule, 0, MOST_ENERGY),
            Field(commit, 0, 1),
        ])?;
        Ok(HourRecord {
            day_ahead: day_ahead as i32,
            meter: meter as i32,
            self_schedule: self_schedule as u32,
            committed: commit > 0,
        })
    }

    // A load runs on no schedule of its own and is never committed.
    pub fn of_load(day_ahead: i64, meter: i64) -> Result<HourRecord, OutOfRange>
        ensures { result ≡ load_hour day_ahead meter }
    {
        check(&[
            Field(day_ahead, -MOST_ENERGY, 0),
            Field(meter, -MOST_ENERGY, 0),
        ])?;
        Ok(HourRecord {
            day_ahead: day_ahead as i32,
            meter: meter as i32,
            self_schedule: 0,
            committed: false,
        })
    }

    // An hour without a record counts as zeros.
    pub fn counted(slot: Option<HourRecord>) -> HourRecord
        ensures { result ≡ counted slot }
    {
        slot.unwrap_or_default()
    }
}

impl Default for HourRecord {
    ghost is_default = { λ hour. hour ≡ zeros };

    fn default() -> HourRecord {
        HourRecord {
            day_ahead: 0,
            meter: 0,
            self_schedule: 0,
            committed: false,
        }
    }
}
