ghost use Rattle.std.specs.Prelude.{◌≡◌, ◌≤◌, unsigned_abs};
ghost use Rattle.hours.specs.Energy.{day_ahead_line, real_time_line, hour_energy, hour_demand, hour_deviation, energy, demand, deviation};

use crate::day::Day;
use crate::records::{HourRecord, Price};
use money::{or_zero, plus, product, round_cents};

impl HourRecord {
    // The schedule at the day-ahead price, in cents.
    fn day_ahead_line(&self, price: &Price) -> i64
        ensures value { result ≡ day_ahead_line self.now price.now }
        ensures bound { unsigned_abs result ≤ 20000000 }
    {
        round_cents(product(self.day_ahead, price.day_ahead))
    }

    // What the meter is off the schedule, at the real-time price, in cents.
    fn real_time_line(&self, price: &Price) -> i64
        ensures value { result ≡ real_time_line self.now price.now }
        ensures bound { unsigned_abs result ≤ 40000000 }
    {
        round_cents(product(self.meter - self.day_ahead, price.real_time))
    }

    // Both lines, each rounded by itself.
    pub fn lines(&self, price: &Price) -> (i64, i64)
        ensures { result ≡ (day_ahead_line self.now price.now, real_time_line self.now price.now) }
    {
        (self.day_ahead_line(price), self.real_time_line(price))
    }

    fn energy(&self, price: &Price) -> i64
        ensures value { result ≡ hour_energy self.now price.now }
        ensures bound { unsigned_abs result ≤ 60000000 }
    {
        plus(self.day_ahead_line(price), self.real_time_line(price))
    }

    // What the meter drew, in kWh.
    pub fn demand(&self) -> u64
        ensures value { result ≡ hour_demand self.now }
        ensures bound { result ≤ 100000 }
    {
        or_zero(-i64::from(self.meter))
    }

    // What the meter is below the schedule, in kWh.
    pub fn deviation(&self) -> u64
        ensures value { result ≡ hour_deviation self.now }
        ensures bound { result ≤ 200000 }
    {
        or_zero(i64::from(self.day_ahead) - i64::from(self.meter))
    }
}

impl Day<HourRecord> {
    // A resource's energy lines, added up, in cents.
    pub fn energy(&self, prices: &Day<Price>) -> i64
        ensures value { result ≡ energy self.now.slots prices.now.slots }
        ensures bound { unsigned_abs result ≤ 1440000000 }
    {
        self.slots
            .iter()
            .zip(&prices.slots)
            .map(|(slot, price)| HourRecord::counted(*slot).energy(&Price::counted(*price)))
            .fold(0, |total, part| plus(total, part))
    }

    // What a resource drew over the day, in kWh. Beside `deviation` it differs in a word, and each is a line of the library's.
    pub fn demand(&self) -> u64
        ensures value { result ≡ demand self.now.slots }
        ensures bound { result ≤ 2400000 }
    {
        self.slots
            .iter()
            .map(|slot| HourRecord::counted(*slot).demand())
            .sum()
    }

    // What a resource's meter was below its schedule, hour by hour, in kWh.
    pub fn deviation(&self) -> u64
        ensures value { result ≡ deviation self.now.slots }
        ensures bound { result ≤ 4800000 }
    {
        self.slots
            .iter()
            .map(|slot| HourRecord::counted(*slot).deviation())
            .sum()
    }
}
