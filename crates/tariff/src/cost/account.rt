ghost use Rattle.std.specs.Prelude.{◌≡◌, ◌+◌, ◌*◌, ◌<◌, ◌≤◌, map, pos, ◌-ℤ◌, unsigned_abs};
ghost use Rattle.money.specs.Amounts.{or_zero};
ghost use Rattle.money.specs.Rounding.{rounded};
ghost use Rattle.commitment.specs.StretchLaws.{Longest};
ghost use Rattle.commitment.specs.Stretches.{listed, covers};
ghost use Rattle.hours.specs.Days.{record_at};
ghost use Rattle.tariff.specs.Costs.{is_on, is_self_committed, kind_of, kinds_from, kinds, runs, self_in, paid_start, start_ups, costs, revenues, cost_of, bid_cost, revenue, uplift, Uplifted};

use super::HourKind;
use super::hourly::{kind_of, thousandths};
use crate::generator::Generator;
use commitment::{Stretch, Stretches};
use hours::{Day, HourRecord, Price};
use money::{or_zero, plus, round_cents};
use std::array;

impl HourKind {
    pub fn is_on(self) -> bool
        ensures { result ≡ is_on self }
    {
        matches!(self, HourKind::Committed | HourKind::SelfCommitted)
    }

    fn is_self_committed(self) -> bool
        ensures { result ≡ is_self_committed self }
    {
        matches!(self, HourKind::SelfCommitted)
    }
}

// What the hour is that follows the first `at`.
fn kind_at(periods: &Stretches, slots: &[Option<HourRecord>; 24], at: usize) -> HourKind
    requires { at < 24 }
    ensures { result ≡ kind_of (covers (listed periods.now) (at + 1)) (record_at slots.now at).committed }
{
    let belongs = periods.cover(at as u8 + 1);
    kind_of(belongs, HourRecord::counted(slots[at]).committed)
}

fn kinds_in(periods: &Stretches, slots: &[Option<HourRecord>; 24]) -> [HourKind; 24]
    ensures { result ≡ kinds_from 1 (listed periods.now) slots.now }
{
    array::from_fn(|at| kind_at(periods, slots, at))
}

fn marks(kinds: &[HourKind; 24]) -> [bool; 24]
    ensures { result ≡ map is_on kinds.now }
{
    // By index, here and for the flags: an array's own `map` takes it apart first, and takes twice as long.
    array::from_fn(|at| kinds[at].is_on())
}

// The runs of a day: the longest stretches of hours that are on.
pub fn runs(kinds: &[HourKind; 24]) -> Stretches
    ensures value { listed result ≡ runs kinds.now }
    ensures law { Longest (map is_on kinds.now) (listed result) }
{
    Stretches::of(&marks(kinds))
}

fn self_in(run: Stretch, kinds: &[HourKind; 24]) -> bool
    ensures { result ≡ self_in run 1 kinds.now }
{
    (1..)
        .zip(kinds)
        .any(|(hour, kind)| run.has(hour) && kind.is_self_committed())
}

// Whether a run's start-up is paid: no hour of it is self-committed, and it was not carried in.
pub fn start_is_paid(run: Stretch, kinds: &[HourKind; 24], carried_in: bool) -> bool
    ensures { result ≡ paid_start carried_in kinds.now run }
{
    !(carried_in && run.first == 1) && !self_in(run, kinds)
}

// How many runs of the day have their start-up paid.
pub fn start_ups(kinds: &[HourKind; 24], carried_in: bool) -> u32
    ensures value { result ≡ start_ups carried_in kinds.now }
    ensures bound { result ≤ 24 }
{
    runs(kinds)
        .as_slice()
        .iter()
        .filter(|run| start_is_paid(**run, kinds, carried_in))
        .count() as u32
}

// What the paid start-ups cost, in thousandths of a cent.
fn start_cost(count: u32, start_up: u32) -> i64
    requires { (count ≤ 24) × (start_up ≤ 10000000) }
    ensures value { result ≡ pos (count * (1000 * start_up)) }
    ensures bound { unsigned_abs result ≤ 240000000000 }
{
    i64::from(count) * thousandths(start_up)
}

// Cost above revenue in whole cents, or nothing.
fn paid(cost: i64, earned: i64) -> u64
    requires { (unsigned_abs cost ≤ 744000000000) × (unsigned_abs earned ≤ 480000000000) }
    ensures value { result ≡ or_zero (rounded (cost -ℤ earned)) }
    ensures bound { result ≤ 1224000000 }
{
    or_zero(round_cents(cost - earned))
}

impl Generator {
    // What every hour of the day is to the generator.
    pub fn kinds(&self, day: &Day<HourRecord>) -> [HourKind; 24]
        ensures { result ≡ kinds self.now day.now.slots }
    {
        kinds_in(&self.periods(day), &day.slots)
    }

    // The costs of all hours, added up.
    fn costs(&self, kinds: &[HourKind; 24], slots: &[Option<HourRecord>; 24]) -> i64
        ensures value { result ≡ costs self.now kinds.now slots.now }
        ensures bound { unsigned_abs result ≤ 504000000000 }
    {
        kinds
            .iter()
            .zip(slots)
            .map(|(kind, slot)| self.hour_cost(*kind, &HourRecord::counted(*slot)))
            .fold(0, |total, cost| plus(total, cost))
    }

    // The revenues of all hours, added up.
    fn revenues(
        &self,
        kinds: &[HourKind; 24],
        slots: &[Option<HourRecord>; 24],
        prices: &[Option<Price>; 24],
    ) -> i64
        ensures value { result ≡ revenues self.now kinds.now slots.now prices.now }
        ensures bound { unsigned_abs result ≤ 480000000000 }
    {
        kinds
            .iter()
            .zip(slots)
            .zip(prices)
            .map(|((kind, slot), price)| {
                self.hour_revenue(*kind, &HourRecord::counted(*slot), &Price::counted(*price))
            })
            .fold(0, |total, revenue| plus(total, revenue))
    }

    fn cost_of(&self, kinds: &[HourKind; 24], slots: &[Option<HourRecord>; 24]) -> i64
        ensures value { result ≡ cost_of self.now kinds.now slots.now }
        ensures bound { unsigned_abs result ≤ 744000000000 }
    {
        let starts = start_cost(start_ups(kinds, self.carried_in), self.start_up);
        plus(self.costs(kinds, slots), starts)
    }

    // The day's bid cost, in thousandths of a cent.
    pub fn bid_cost(&self, day: &Day<HourRecord>) -> i64
        ensures value { result ≡ bid_cost self.now day.now.slots }
        ensures bound { unsigned_abs result ≤ 744000000000 }
    {
        self.cost_of(&self.kinds(day), &day.slots)
    }

    // The day's revenue, in thousandths of a cent.
    pub fn revenue(&self, day: &Day<HourRecord>, prices: &Day<Price>) -> i64
        ensures value { result ≡ revenue self.now day.now.slots prices.now.slots }
        ensures bound { unsigned_abs result ≤ 480000000000 }
    {
        self.revenues(&self.kinds(day), &day.slots, &prices.slots)
    }

    // What the day's bid cost is above its revenue, in cents, or nothing.
    pub fn uplift(&self, day: &Day<HourRecord>, prices: &Day<Price>) -> u64
        ensures value { result ≡ uplift self.now day.now.slots prices.now.slots }
        ensures law { Uplifted (bid_cost self.now day.now.slots) (revenue self.now day.now.slots prices.now.slots) result }
        ensures bound { result ≤ 1224000000 }
    {
        let kinds = self.kinds(day);
        let cost = self.cost_of(&kinds, &day.slots);
        let earned = self.revenues(&kinds, &day.slots, &prices.slots);
        paid(cost, earned)
    }
}
