mod account;
mod hourly;

pub use account::{runs, start_is_paid, start_ups};

// What an hour is to a generator.
#[derive(Clone, Copy, PartialEq, Eq, Debug)]
pub enum HourKind {
    Off,
    // on by the pool's commitment
    Committed,
    // on by the generator's own schedule
    SelfCommitted,
}
