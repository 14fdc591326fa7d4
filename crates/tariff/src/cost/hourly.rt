ghost use Rattle.std.specs.Prelude.{◌≡◌, ◌*◌, ◌≤◌, pos, unsigned_abs};
ghost use Rattle.money.specs.Amounts.{or_zero};
ghost use Rattle.tariff.specs.Costs.{kind_of, taken, hour_cost, hour_revenue};

use super::HourKind;
use crate::generator::Generator;
use hours::{HourRecord, Price};
use money::{cost, plus, product};

fn kwh(energy: i32) -> u32
    ensures { result ≡ or_zero energy }
{
    u32::try_from(energy).unwrap_or(0)
}

pub(super) fn kind_of(belongs: bool, committed: bool) -> HourKind
    ensures { result ≡ kind_of belongs committed }
{
    if belongs {
        HourKind::SelfCommitted
    } else if committed {
        HourKind::Committed
    } else {
        HourKind::Off
    }
}

// Whole cents as thousandths of a cent.
pub(super) fn thousandths(cents: u32) -> i64
    ensures { result ≡ pos (1000 * cents) }
{
    1000 * i64::from(cents)
}

impl Generator {
    // What a self-committed hour runs at without being asked.
    fn taken(&self, hour: &HourRecord) -> u32
        ensures { result ≡ taken self.now hour.now }
    {
        self.min_load.max(hour.self_schedule)
    }

    // What the hour's energy costs by the bid, in thousandths of a cent.
    pub fn hour_cost(&self, kind: HourKind, hour: &HourRecord) -> i64
        ensures value { result ≡ hour_cost self.now kind hour.now }
        ensures bound { unsigned_abs result ≤ 21000000000 }
    {
        let scheduled = kwh(hour.day_ahead);
        match kind {
            HourKind::SelfCommitted => self.bid.area(self.taken(hour), scheduled),
            HourKind::Committed => plus(
                thousandths(self.load_cost),
                self.bid.area(self.min_load, scheduled),
            ),
            HourKind::Off => 0,
        }
    }

    // What the hour earns at the day-ahead price, in thousandths of a cent.
    pub fn hour_revenue(&self, kind: HourKind, hour: &HourRecord, price: &Price) -> i64
        ensures value { result ≡ hour_revenue self.now kind hour.now price.now }
        ensures bound { unsigned_abs result ≤ 20000000000 }
    {
        match kind {
            HourKind::SelfCommitted => {
                let above = kwh(hour.day_ahead).saturating_sub(self.taken(hour));
                cost(above, price.day_ahead)
            }
            HourKind::Committed => product(hour.day_ahead, price.day_ahead),
            HourKind::Off => 0,
        }
    }
}
