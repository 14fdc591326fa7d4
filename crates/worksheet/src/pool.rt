use crate::day::GeneratorDay;
use crate::fault::Fault;
use hours::{Day, Hour, HourRecord, OutOfRange, Price};
use sharing::{ByDemand, Capped, MemberRow, SharingRule};
use std::io;

// cents per MWh
const RATE: u32 = 30_000;

// A pool of two: member 1 has the generator, member 2 the load, both at one place.
#[derive(Clone, Copy)]
pub struct PoolDay {
    supply: GeneratorDay,
    load: Day<HourRecord>,
}

// A member's part in the sheet, in cents.
#[derive(Clone, Copy)]
struct Terms {
    energy: i64,
    uplift: i64,
}

impl PoolDay {
    pub fn worked() -> Result<PoolDay, OutOfRange> {
        let supply = GeneratorDay::in_one_hour(0)?;
        let mut load = Day::empty();
        load.set(Hour::new(2)?, HourRecord::of_load(-20_000, -20_500)?);
        Ok(PoolDay { supply, load })
    }

    fn rows(&self) -> [MemberRow; 2] {
        [row(1, &self.supply.hours), row(2, &self.load)]
    }

    fn terms(&self) -> [Terms; 2] {
        let prices = &self.supply.prices;
        let uplift = self.supply.generator.uplift(&self.supply.hours, prices);
        [
            Terms {
                energy: self.supply.hours.energy(prices),
                uplift: signed(uplift),
            },
            Terms {
                energy: self.load.energy(prices),
                uplift: 0,
            },
        ]
    }

    pub fn print(&self, rt: &impl Print) -> Result<(), Fault> {
        self.supply.print(rt)?;
        print_lines(rt, 11, &self.supply.hours, &self.supply.prices)?;
        print_lines(rt, 21, &self.load, &self.supply.prices)?;
        let rows = self.rows();
        let terms = self.terms();
        print_rows(rt, &rows, &terms)?;
        let [supply, load] = terms;
        let neutral = share_neutrality(rt, supply.energy.saturating_add(load.energy), &rows)?;
        let uplift = share_uplift(rt, supply.uplift, &rows)?;
        let shares = uplift.iter().zip(&neutral);
        for (row, (terms, (uplift, neutral))) in rows.iter().zip(terms.iter().zip(shares)) {
            let paid = terms.energy.saturating_add(terms.uplift);
            let amount = paid.saturating_sub(*uplift).saturating_sub(*neutral);
            println!(rt; "  member {}: amount {amount}", row.id)?;
        }
        Ok(())
    }
}

fn row(id: u16, hours: &Day<HourRecord>) -> MemberRow {
    MemberRow {
        id,
        demand: hours.demand() as u32,
        deviation: hours.deviation() as u32,
    }
}

fn print_lines(
    rt: &impl Print,
    id: u16,
    hours: &Day<HourRecord>,
    prices: &Day<Price>,
) -> io::Result<()> {
    for (hour, (slot, price)) in (1u8..=24).zip(hours.slots.iter().zip(&prices.slots)) {
        if let Some(record) = slot {
            let (day_ahead, real_time) = record.lines(&Price::counted(*price));
            println!(rt;
                "  resource {id} hour {hour}: day-ahead line {day_ahead} real-time line {real_time}"
            )?;
        }
    }
    Ok(())
}

fn print_rows(rt: &impl Print, rows: &[MemberRow; 2], terms: &[Terms; 2]) -> io::Result<()> {
    for (row, terms) in rows.iter().zip(terms) {
        let MemberRow {
            id,
            demand,
            deviation,
        } = *row;
        let Terms { energy, uplift } = *terms;
        println!(rt;
            "  member {id}: energy {energy} uplift {uplift} demand {demand} deviation {deviation}"
        )?;
    }
    Ok(())
}

// Amounts of a pool stay far from the end of the numbers.
fn signed(share: u64) -> i64 {
    i64::try_from(share).unwrap_or(i64::MAX)
}

// For a pot below zero the shares are those of its size, negated.
fn share_neutrality(rt: &impl Print, pot: i64, rows: &[MemberRow; 2]) -> Result<[i64; 2], Fault> {
    println!(rt; "  neutrality pot {pot}, by demand")?;
    let mut sizes = [0; 2];
    ByDemand.share(pot.saturating_abs(), rows, &mut sizes)?;
    let shares = sizes.map(|size| if pot < 0 {
        signed(size).saturating_neg()
    } else {
        signed(size)
    });
    for (row, share) in rows.iter().zip(&shares) {
        println!(rt; "    member {}: share {share}", row.id)?;
    }
    Ok(shares)
}

fn share_uplift(rt: &impl Print, pot: i64, rows: &[MemberRow; 2]) -> Result<[i64; 2], Fault> {
    println!(rt; "  uplift pot {pot}, by a tier of rate {RATE} over demand")?;
    let rule = Capped {
        rate: RATE,
        below: ByDemand,
    };
    let mut own = [0; 2];
    let mut shares = [0; 2];
    let borne = rule.own_amounts(pot, rows, &mut own)?;
    rule.share(pot, rows, &mut shares)?;
    let rest = pot.saturating_sub(signed(borne));
    println!(rt; "    own amounts {borne}, rest {rest}")?;
    for (row, (amount, share)) in rows.iter().zip(own.iter().zip(&shares)) {
        println!(rt; "    member {}: own amount {amount} share {share}", row.id)?;
    }
    Ok(shares.map(signed))
}
