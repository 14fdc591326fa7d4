ghost use Rattle.std.specs.Prelude.{◌≡◌, IfOk, Ok};
ghost use Rattle.commitment.specs.CommitmentLaws.{SelfCommitted};
ghost use Rattle.tariff.specs.Costs.{bid_cost, revenue as revenue-of, Uplifted};
ghost use Rattle.tariff.specs.Schedules.{flags};
ghost use Rattle.tariff.specs.declared.generator.Generator.{Generator as Machine};
ghost use Rattle.figures.specs.Prices.{prices_at};
ghost use Rattle.figures.specs.declared.standing.Resource.{Resource as Entry};
ghost use Rattle.daybook.specs.Held.{held};
ghost use Rattle.daybook.specs.Questions.{generator_asked, periods_asked, bid_cost_asked, revenue_asked, uplift_asked};
ghost use Rattle.daybook.specs.Periods.{listed_in};

use super::DayBook;
use crate::book::finding::not_registered;
use crate::id::Id;
use commitment::Stretches;
use figures::Resource;
use refusal::{Kind, Refusal};
use tariff::Generator;

// Questions about a generator.
impl<'a> DayBook<'a> {
    fn asked_generator(&self, id: i64) -> Result<(Generator, Resource), Refusal>
        ensures { result ≡ generator_asked (held self.now) id }
    {
        let id = Id::read(id)?;
        let resource = self.resource(id)?;
        let generator = resource
            .unit
            .generator()
            .ok_or(not_registered(id, Kind::Resource))?;
        Ok((generator, resource))
    }

    // Its self-commitment periods, in the order of the day.
    pub fn periods(&self, generator: i64) -> Result<Stretches, Refusal>
        ensures value { listed_in result ≡ periods_asked (held self.now) generator }
        ensures law { (g : Machine) (x : Entry) → generator_asked (held self.now) generator ≡ Ok (g, x) → SelfCommitted g.mrt g.mdt g.mds g.carried_in (flags x.hours.slots) }
    {
        let (generator, resource) = self.asked_generator(generator)?;
        Ok(generator.periods(&resource.hours))
    }

    // Its bid cost for the day, in thousandths of a cent.
    pub fn bid_cost(&self, generator: i64) -> Result<i64, Refusal>
        ensures { result ≡ bid_cost_asked (held self.now) generator }
    {
        let (generator, resource) = self.asked_generator(generator)?;
        Ok(generator.bid_cost(&resource.hours))
    }

    // Its revenue for the day, in thousandths of a cent.
    pub fn revenue(&self, generator: i64) -> Result<i64, Refusal>
        ensures { result ≡ revenue_asked (held self.now) generator }
    {
        let (generator, resource) = self.asked_generator(generator)?;
        let prices = resource.priced(self.places.all())?;
        Ok(generator.revenue(&resource.hours, &prices))
    }

    // What its bid cost is above its revenue, in cents, or nothing.
    pub fn uplift(&self, generator: i64) -> Result<u64, Refusal>
        ensures value { result ≡ uplift_asked (held self.now) generator }
        ensures law { IfOk result (λ paid. (g : Machine) (x : Entry) → generator_asked (held self.now) generator ≡ Ok (g, x) → Uplifted (bid_cost g x.hours.slots) (revenue-of g x.hours.slots (prices_at (held self.now).places x.place)) paid) }
    {
        let (generator, resource) = self.asked_generator(generator)?;
        let prices = resource.priced(self.places.all())?;
        Ok(generator.uplift(&resource.hours, &prices))
    }
}
