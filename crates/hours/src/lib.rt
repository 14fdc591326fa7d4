// What is entered for an hour, the twenty-four slots of a day, and what they come to in energy, demand and deviation.

#![tactic(auto)]

mod day;
mod energy;
mod range;
mod records;

pub use day::{Day, Hour};
pub use range::{Field, OutOfRange, check};
pub use records::{HourRecord, Price};
