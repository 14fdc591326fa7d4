ghost use Rattle.std.specs.Prelude.{◌≡◌, ◌*◌, ◌≤◌, unsigned_abs};
ghost use Rattle.tariff.specs.Bids.{between, area, Priced};

use crate::generator::EnergyBid;
use money::cost;

fn between(a: u32, b: u32, from: u32, to: u32) -> u32
    ensures { result ≡ between a b from to }
{
    b.min(to).saturating_sub(a.max(from))
}

impl EnergyBid {
    // What the bid asks for the energy between two quantities, in thousandths of a cent.
    pub fn area(&self, from: u32, to: u32) -> i64
        ensures value { result ≡ area self.now from to }
        ensures law { Priced self.now from to result }
        ensures bound { unsigned_abs result ≤ to * 200000 }
    {
        let first = cost(between(0, self.u1, from, to), self.b1);
        let second = cost(between(self.u1, self.u2, from, to), self.b2);
        let third = cost(to.saturating_sub(self.u2.max(from)), self.b3);
        first + second + third
    }
}
