// Self-commitment: which hours a generator's own schedule binds it to, and the stretches of hours that this and its
// runs are told in.

#![tactic(auto)]

mod gaps;
mod steps;
mod stretch;

pub use steps::periods;
pub use stretch::{Stretch, Stretches, gap};
