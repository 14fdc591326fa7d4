use crate::cents::Cents;
use commitment::Stretch;
use hours::{Day, Hour, HourRecord, OutOfRange, Price};
use std::{fmt, io};
use tariff::{Generator, GeneratorForm, HourKind};

// A generator's day, with the prices of its place.
#[derive(Clone, Copy)]
pub struct GeneratorDay {
    pub generator: Generator,
    pub hours: Day<HourRecord>,
    pub prices: Day<Price>,
}

// How a kind of hour is printed.
#[derive(Clone, Copy)]
struct KindName(HourKind);

impl fmt::Display for KindName {
    fn fmt<W: fmt::Write>(&self, f: &mut fmt::Formatter<W>) -> fmt::Result {
        f.write_str(match self.0 {
            HourKind::Off => "off",
            HourKind::Committed => "committed",
            HourKind::SelfCommitted => "self-committed",
        })
    }
}

impl GeneratorDay {
    // Committed in hour 2.
    pub fn in_one_hour(own: i64) -> Result<GeneratorDay, OutOfRange> {
        let generator = Generator::register(&GeneratorForm {
            min_load: 10_000,
            load_cost: 40_000,
            start_up: 50_000,
            mrt: 1,
            mdt: 1,
            mds: 1,
            carried: 0,
            b1: 5_000,
            u1: 30_000,
            b2: 5_000,
            u2: 30_000,
            b3: 5_000,
        })?;
        let hour = Hour::new(2)?;
        let mut hours = Day::empty();
        hours.set(hour, HourRecord::of_generator(20_000, 19_000, own, 1)?);
        let mut prices = Day::empty();
        prices.set(hour, Price::new(4_000, 4_500)?);
        Ok(GeneratorDay {
            generator,
            hours,
            prices,
        })
    }

    // Committed in hours 2 and 3. The self-schedule is that of hour 2.
    pub fn in_two_hours(own: i64) -> Result<GeneratorDay, OutOfRange> {
        let mut day = GeneratorDay::in_one_hour(own)?;
        let hour = Hour::new(3)?;
        day.hours
            .set(hour, HourRecord::of_generator(20_000, 19_000, 0, 1)?);
        day.prices.set(hour, Price::new(4_000, 4_500)?);
        Ok(day)
    }

    pub fn print(&self, rt: &impl Print) -> io::Result<()> {
        self.print_periods(rt)?;
        let kinds = self.generator.kinds(&self.hours);
        let slots = self.hours.slots.iter().zip(&self.prices.slots);
        for (hour, (kind, (record, price))) in (1..=24).zip(kinds.iter().zip(slots)) {
            if kind.is_on() {
                self.print_hour(rt, hour, *kind, *record, *price)?;
            }
        }
        for run in tariff::runs(&kinds).as_slice() {
            self.print_run(rt, *run, &kinds)?;
        }
        self.print_day(rt)
    }

    fn print_periods(&self, rt: &impl Print) -> io::Result<()> {
        let periods = self.generator.periods(&self.hours);
        if periods.as_slice().is_empty() {
            return println!(rt; "  no self-commitment period");
        }
        for period in periods.as_slice() {
            let Stretch { first, last } = *period;
            println!(rt; "  self-commitment period: hours {first} to {last}")?;
        }
        Ok(())
    }

    fn print_hour(
        &self,
        rt: &impl Print,
        hour: u8,
        kind: HourKind,
        record: Option<HourRecord>,
        price: Option<Price>,
    ) -> io::Result<()> {
        let name = KindName(kind);
        let record = HourRecord::counted(record);
        let price = Price::counted(price);
        let cost = Cents(self.generator.hour_cost(kind, &record));
        let revenue = Cents(self.generator.hour_revenue(kind, &record, &price));
        println!(rt; "  hour {hour} {name}: cost {cost} revenue {revenue}")
    }

    fn print_run(&self, rt: &impl Print, run: Stretch, kinds: &[HourKind; 24]) -> io::Result<()> {
        let Stretch { first, last } = run;
        let start_up = self.generator.start_up;
        if tariff::start_is_paid(run, kinds, self.generator.carried_in) {
            println!(rt; "  run of hours {first} to {last}: start-up {start_up}.000")
        } else {
            println!(rt; "  run of hours {first} to {last}: no start-up")
        }
    }

    fn print_day(&self, rt: &impl Print) -> io::Result<()> {
        let cost = Cents(self.generator.bid_cost(&self.hours));
        let revenue = Cents(self.generator.revenue(&self.hours, &self.prices));
        let uplift = self.generator.uplift(&self.hours, &self.prices);
        println!(rt; "  day: cost {cost} revenue {revenue}")?;
        println!(rt; "  uplift {uplift}")
    }
}
