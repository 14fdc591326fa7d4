ghost use Rattle.std.specs.Prelude.{◌≡◌, not, ◌&&◌, is_some};
ghost use Rattle.figures.specs.Entries.{place_key};
ghost use Rattle.figures.specs.Standing.{places_in, resources_in, counted, of_member};
ghost use Rattle.figures.specs.Prices.{prices_at, missing_hour, resource_missing, missing};

use crate::standing::{MissingPrice, Place, Resource, Standing};
use hours::{Day, HourRecord, Price};
use table::Keyed;

impl Keyed for Place {
    type Key = u16;

    ghost key = { place_key };

    fn key(&self) -> u16 {
        self.id
    }
}

// The prices of a place. A place that is not there has none.
pub fn prices_at(places: &[Place], id: u16) -> Day<Price>
    ensures { result.slots ≡ prices_at places.now id }
{
    places
        .iter()
        .find(|place| place.id == id)
        .map_or_else(Day::empty, |place| place.prices)
}

// A record that stands needs its price, even where all its numbers are zero.
fn is_unpriced(slot: Option<HourRecord>, price: Option<Price>) -> bool
    ensures { result ≡ is_some slot && not (is_some price) }
{
    slot.is_some() && price.is_none()
}

fn missing_hour(slots: &[Option<HourRecord>; 24], prices: &[Option<Price>; 24]) -> Option<u8>
    ensures { result ≡ missing_hour slots.now prices.now }
{
    slots
        .iter()
        .zip(prices)
        .position(|(slot, price)| is_unpriced(*slot, *price))
        .map(|before| before as u8 + 1)
}

impl Resource {
    // Its first hour record without its price.
    pub fn missing_price(&self, places: &[Place]) -> Option<MissingPrice>
        ensures { result ≡ resource_missing places.now self.now }
    {
        let prices = prices_at(places, self.place);
        missing_hour(&self.hours.slots, &prices.slots).map(|hour| MissingPrice {
            resource: self.id,
            hour,
        })
    }
}

impl<'a> Standing<'a> {
    fn first_missing(&self, member: Option<u16>) -> Option<MissingPrice>
        ensures { result ≡ missing (places_in self.now) (counted member (resources_in self.now)) }
    {
        self.resources
            .iter()
            .filter(|resource| resource.counts(member))
            .find_map(|resource| resource.missing_price(self.places))
    }

    // The first hour record without its price, by the order of the resources and then by hour.
    pub fn missing_price(&self) -> Option<MissingPrice>
        ensures { result ≡ missing (places_in self.now) (resources_in self.now) }
    {
        self.first_missing(None)
    }

    // The same among a member's resources.
    pub fn missing_price_of(&self, member: u16) -> Option<MissingPrice>
        ensures { result ≡ missing (places_in self.now) (of_member member (resources_in self.now)) }
    {
        self.first_missing(Some(member))
    }
}
