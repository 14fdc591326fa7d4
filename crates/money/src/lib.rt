// Money in cents, and its finer unit: kWh times cents per MWh are thousandths of a cent.

#![tactic(auto)]

mod amount;

pub use amount::{cost, or_zero, plus, product, round_cents};
