ghost use Rattle.std.specs.Prelude.{◌≡◌};
ghost use Rattle.hours.specs.Days.{no_price, price_or0};
ghost use Rattle.hours.specs.Records.{price_of};

use super::Price;
use crate::range::{Field, OutOfRange, check};

// cents per MWh
const MOST_PRICE: i64 = 200_000;

impl Price {
    pub fn new(day_ahead: i64, real_time: i64) -> Result<Price, OutOfRange>
        ensures { result ≡ price_of day_ahead real_time }
    {
        check(&[
            Field(day_ahead, -MOST_PRICE, MOST_PRICE),
            Field(real_time, -MOST_PRICE, MOST_PRICE),
        ])?;
        Ok(Price {
            day_ahead: day_ahead as i32,
            real_time: real_time as i32,
        })
    }

    // Only an hour without a record does without a price, and its energy is zero.
    pub fn counted(slot: Option<Price>) -> Price
        ensures { result ≡ price_or0 slot }
    {
        slot.unwrap_or_default()
    }
}

impl Default for Price {
    ghost is_default = { λ price. price ≡ no_price };

    fn default() -> Price {
        Price {
            day_ahead: 0,
            real_time: 0,
        }
    }
}
