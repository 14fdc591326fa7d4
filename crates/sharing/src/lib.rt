// A total in cents shared among the members of a pool, to the last cent: the law that every sharing rule keeps, and our rules.

#![tactic(auto)]

mod admission;
mod by_demand;
mod capped;
mod levy;
mod rows;
mod rule;
mod weights;

pub use admission::admit;
pub use by_demand::ByDemand;
pub use capped::Capped;
pub use rows::MemberRow;
pub use rule::{SharingRule, share_out};
