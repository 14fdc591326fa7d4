// Entries by rising key, in memory that the caller lends.

#![tactic(auto)]

mod key;
mod table;

pub use key::{Keyed, Rank};
pub use table::{Refused, Table};
