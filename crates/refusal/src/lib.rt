// What a refused call answers: the cause as a case with its values, and the number and two details it is printed by.

#![tactic(auto)]

mod cause;
mod kinds;

pub use cause::Refusal;
pub use kinds::{Kind, Pot, Store};
