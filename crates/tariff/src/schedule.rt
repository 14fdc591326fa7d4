ghost use Rattle.std.specs.Prelude.{◌≡◌, ◌<◌, None, slice_index_or};
ghost use Rattle.commitment.specs.CommitmentLaws.{SelfCommitted};
ghost use Rattle.commitment.specs.Stretches.{listed};
ghost use Rattle.tariff.specs.Schedules.{flagged, flags, periods_of};

use crate::generator::Generator;
use commitment::{Stretches, periods};
use hours::{Day, HourRecord};
use std::array;

fn is_flagged(slot: Option<HourRecord>) -> bool
    ensures { result ≡ flagged slot }
{
    HourRecord::counted(slot).self_schedule > 0
}

// Whether the hour is flagged that follows the first `at`.
fn flag_at(slots: &[Option<HourRecord>; 24], at: usize) -> bool
    requires { at < 24 }
    ensures { result ≡ flagged (slice_index_or slots.now at None) }
{
    is_flagged(slots[at])
}

fn flags(slots: &[Option<HourRecord>; 24]) -> [bool; 24]
    ensures { result ≡ flags slots.now }
{
    array::from_fn(|at| flag_at(slots, at))
}

impl Generator {
    // The self-commitment periods of a day.
    pub fn periods(&self, day: &Day<HourRecord>) -> Stretches
        ensures value { listed result ≡ periods_of self.now day.now.slots }
        ensures law { SelfCommitted self.now.mrt self.now.mdt self.now.mds self.now.carried_in (flags day.now.slots) }
    {
        periods(
            &flags(&day.slots),
            self.mrt,
            self.mdt,
            self.mds,
            self.carried_in,
        )
    }
}
