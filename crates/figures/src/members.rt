ghost use Rattle.std.specs.Prelude.{◌≡◌, ◌≤◌, ℕ, sum_by, unsigned_abs};
ghost use Rattle.figures.specs.Entries.{member_key};
ghost use Rattle.figures.specs.Standing.{places_in, resources_in, counted};
ghost use Rattle.figures.specs.Figures.{resource_energy, total_by, member_energy, member_uplift, member_row};
ghost use Rattle.figures.specs.Owners.{RowsOfAll};
ghost use Rattle.figures.specs.declared.standing.Resource.{Resource};

use crate::standing::{Member, Resource, Standing};
use money::plus;
use sharing::MemberRow;
use table::Keyed;

impl Keyed for Member {
    type Key = u16;

    ghost key = { member_key };

    fn key(&self) -> u16 {
        self.id
    }
}

impl<'a> Standing<'a> {
    // The energy of a member, or of all, in cents.
    pub(crate) fn sum_energy(&self, member: Option<u16>) -> i64
        ensures value { result ≡ total_by (resource_energy (places_in self.now)) (counted member (resources_in self.now)) }
        ensures bound { unsigned_abs result ≤ 46080000000 }
    {
        self.resources
            .iter()
            .filter(|resource| resource.counts(member))
            .fold(
                0,
                |total, resource| plus(total, resource.energy(self.places)),
            )
    }

    // What a member's resources, or all of them, come to in a quantity that is never below zero. None is larger than an
    // uplift can be.
    pub(crate) fn sum_of<Q: Fn(&Resource) -> u64>(&self, member: Option<u16>, quantity: Q) -> u64
        ghost q: { Resource → ℕ }
        requires callable { Q.IsAlwaysCallable quantity }
        requires computes { (r : _) (n : _) → Q.post quantity r n → (n ≡ q r.now) × (n ≤ 1224000000) }
        ensures value { result ≡ sum_by q (counted member (resources_in self.now)) }
        ensures bound { result ≤ 39168000000 }
    {
        self.resources
            .iter()
            .filter(|resource| resource.counts(member))
            .map(|resource| quantity(resource))
            .sum()
    }

    // A member's energy lines, added up, in cents.
    pub fn energy_of(&self, member: u16) -> i64
        ensures value { result ≡ member_energy (places_in self.now) (resources_in self.now) member }
        ensures bound { unsigned_abs result ≤ 46080000000 }
    {
        self.sum_energy(Some(member))
    }

    // The uplifts of a member's generators, added up, in cents.
    pub fn uplift_of(&self, member: u16) -> u64
        ensures value { result ≡ member_uplift (places_in self.now) (resources_in self.now) member }
        ensures bound { result ≤ 39168000000 }
    {
        self.sum_of(Some(member), |resource| resource.uplift(self.places))
    }

    // What a sharing rule is told of a member.
    pub fn row_of(&self, member: u16) -> MemberRow
        ensures value { result ≡ member_row (resources_in self.now) member }
        ensures together { RowsOfAll (resources_in self.now) }
        ensures bound { (result.demand ≤ 76800000) × (result.deviation ≤ 153600000) }
    {
        let demand = self.sum_of(Some(member), |resource| resource.hours.demand());
        let deviation = self.sum_of(Some(member), |resource| resource.hours.deviation());
        MemberRow {
            id: member,
            demand: demand as u32,
            deviation: deviation as u32,
        }
    }
}
