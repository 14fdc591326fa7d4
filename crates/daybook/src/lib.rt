// The day book: the records that stand for one trading day, the calls that change them, and the questions that it answers.

#![tactic(auto)]

mod book;
mod id;

pub use book::DayBook;
pub use id::Id;
