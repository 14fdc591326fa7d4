// One generator's day by the tariff: the energy bid, self-commitment, bid cost, revenue and uplift.

#![tactic(auto)]

mod bid;
mod cost;
mod generator;
mod schedule;

pub use cost::{HourKind, runs, start_is_paid, start_ups};
pub use generator::{EnergyBid, Generator, GeneratorForm};
