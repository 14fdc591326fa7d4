// What a day's standing records come to: energy and uplift, the rows that sharing rules are told, and the two pots, or the
// price that is missing for them.

#![tactic(auto)]

mod members;
mod pots;
mod priced;
mod prices;
mod resource;
mod rows;
mod standing;
mod worked;

pub use prices::prices_at;
pub use rows::{Roll, Rows};
pub use standing::{Member, MissingPrice, Place, Resource, Standing, Terms, Unit};
pub use worked::worked_cases;
