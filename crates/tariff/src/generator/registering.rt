ghost use Rattle.std.specs.Prelude.{◌≡◌, MatchResult};
ghost use Rattle.hours.specs.Ranges.{Inside, Outside};
ghost use Rattle.tariff.specs.Generators.{generator_fields, generator_of};

use super::{EnergyBid, Generator, GeneratorForm};
use hours::{Field, OutOfRange, check};

impl GeneratorForm {
    fn fields(&self) -> [Field; 12]
        ensures { result ≡ generator_fields self.now }
    {
        [
            Field(self.min_load, 0, 100_000),
            Field(self.load_cost, 0, 1_000_000),
            Field(self.start_up, 0, 10_000_000),
            Field(self.mrt, 1, 24),
            Field(self.mdt, 1, 24),
            Field(self.mds, 1, 24),
            Field(self.carried, 0, 1),
            Field(self.b1, -200_000, 200_000),
            Field(self.u1, self.min_load, 100_000),
            Field(self.b2, self.b1, 200_000),
            Field(self.u2, self.u1, 100_000),
            Field(self.b3, self.b2, 200_000),
        ]
    }

    fn check(&self) -> Result<(), OutOfRange>
        ensures { MatchResult result (λ _. Inside (generator_fields self.now)) (λ e. Outside (generator_fields self.now) e) }
    {
        check(&self.fields())
    }
}

impl Generator {
    pub fn register(form: &GeneratorForm) -> Result<Generator, OutOfRange>
        ensures { result ≡ generator_of form.now }
    {
        form.check()?;
        let bid = EnergyBid {
            b1: form.b1 as i32,
            u1: form.u1 as u32,
            b2: form.b2 as i32,
            u2: form.u2 as u32,
            b3: form.b3 as i32,
        };
        Ok(Generator {
            min_load: form.min_load as u32,
            load_cost: form.load_cost as u32,
            start_up: form.start_up as u32,
            mrt: form.mrt as u8,
            mdt: form.mdt as u8,
            mds: form.mds as u8,
            carried_in: form.carried > 0,
            bid,
        })
    }
}
