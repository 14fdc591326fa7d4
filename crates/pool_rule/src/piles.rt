ghost use Rattle.std.specs.Prelude.{◌≡◌, length, take, OnOk, unsigned_abs};
ghost use Rattle.sharing.specs.Admission.{admitted, answered, filled};
ghost use Rattle.sharing.specs.ShareLaw.{Fair};
ghost use Rattle.sharing.specs.Rules.{by_demand, capped};
ghost use Rattle.pool_rule.specs.EqualParts.{equal_parts};

use crate::equal_parts::EqualParts;
use refusal::Refusal;
use sharing::{ByDemand, Capped, MemberRow, share_out};

// The rates of three tiers, the uppermost first, in cents per MWh.
#[derive(Clone, Copy)]
pub struct Rates {
    pub first: u32,
    pub second: u32,
    pub third: u32,
}

// Three tiers over by demand.
pub fn share_in_three_tiers(
    rates: Rates,
    total: i64,
    rows: &[MemberRow],
    shares: &mut [u64],
) -> Result<(), Refusal>
    ensures reply { result ≡ answered (admitted total rows.now (length shares.old)) (λ _. tt) }
    ensures after { shares.new ≡ filled (admitted total rows.now (length shares.old)) (λ t. capped rates.first (capped rates.second (capped rates.third by_demand)) t rows.now) shares.old }
    ensures law { OnOk result (Fair (unsigned_abs total) rows.now (take (length rows.now) shares.new)) }
{
    let third = Capped {
        rate: rates.third,
        below: ByDemand,
    };
    let second = Capped {
        rate: rates.second,
        below: third,
    };
    let first = Capped {
        rate: rates.first,
        below: second,
    };
    share_out(&first, total, rows, shares)
}

// One tier over the pool's own rule.
pub fn share_over_equal_parts(
    rate: u32,
    total: i64,
    rows: &[MemberRow],
    shares: &mut [u64],
) -> Result<(), Refusal>
    ensures reply { result ≡ answered (admitted total rows.now (length shares.old)) (λ _. tt) }
    ensures after { shares.new ≡ filled (admitted total rows.now (length shares.old)) (λ t. capped rate equal_parts t rows.now) shares.old }
    ensures law { OnOk result (Fair (unsigned_abs total) rows.now (take (length rows.now) shares.new)) }
{
    let rule = Capped {
        rate,
        below: EqualParts,
    };
    share_out(&rule, total, rows, shares)
}
