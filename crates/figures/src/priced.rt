ghost use Rattle.std.specs.Prelude.{◌≡◌, ◌≤◌, IfOk, unsigned_abs};
ghost use Rattle.figures.specs.Figures.{member_energy};
ghost use Rattle.figures.specs.Pots.{unless_missing};
ghost use Rattle.figures.specs.Priced.{refusal_of, priced_day};
ghost use Rattle.figures.specs.Prices.{missing};
ghost use Rattle.figures.specs.Standing.{places_in, resources_in, of_member};

use crate::prices::prices_at;
use crate::standing::{MissingPrice, Place, Resource, Standing};
use hours::{Day, Price};
use refusal::Refusal;

impl From<MissingPrice> for Refusal {
    ghost from_gives = { λ m r. r ≡ refusal_of m };

    fn from(missing: MissingPrice) -> Refusal {
        Refusal::PriceMissing {
            resource: missing.resource,
            hour: missing.hour,
        }
    }
}

impl Resource {
    // The prices of its place, or the refusal that tells its first hour record without one.
    pub fn priced(&self, places: &[Place]) -> Result<Day<Price>, Refusal>
        ensures { result ≡ priced_day places.now self.now }
    {
        if let Some(missing) = self.missing_price(places) {
            return Err(missing.into());
        }
        Ok(prices_at(places, self.place))
    }
}

impl<'a> Standing<'a> {
    // A member's energy, or the refusal that tells the first hour record among its resources without a price.
    pub fn priced_energy_of(&self, member: u16) -> Result<i64, Refusal>
        ensures value { result ≡ unless_missing (missing (places_in self.now) (of_member member (resources_in self.now))) (member_energy (places_in self.now) (resources_in self.now) member) }
        ensures bound { IfOk result (λ e. unsigned_abs e ≤ 46080000000) }
    {
        if let Some(missing) = self.missing_price_of(member) {
            return Err(missing.into());
        }
        Ok(self.energy_of(member))
    }
}
