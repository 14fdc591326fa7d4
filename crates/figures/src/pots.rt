ghost use Rattle.std.specs.Prelude.{◌≡◌, ◌≤◌, IfOk, unsigned_abs};
ghost use Rattle.sharing.specs.Admission.{most_total};
ghost use Rattle.figures.specs.Standing.{places_in, resources_in};
ghost use Rattle.figures.specs.Pots.{pots};
ghost use Rattle.figures.specs.Owners.{ByMembers};

use crate::standing::Standing;
use refusal::Refusal;

impl<'a> Standing<'a> {
    // What is to be shared among the members: the neutrality pot, which may be below zero, and the uplift pot, in cents.
    pub fn pots(&self) -> Result<(i64, u64), Refusal>
        ensures reply { result ≡ pots (places_in self.now) (resources_in self.now) }
        ensures members { IfOk result (λ p. ByMembers (places_in self.now) (resources_in self.now) p) }
        ensures bound { IfOk result (λ p. (unsigned_abs p.0 ≤ most_total) × (p.1 ≤ most_total)) }
    {
        if let Some(missing) = self.missing_price() {
            return Err(missing.into());
        }
        let uplift = self.sum_of(None, |resource| resource.uplift(self.places));
        Ok((self.sum_energy(None), uplift))
    }
}
