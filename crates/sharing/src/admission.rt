ghost use Rattle.std.specs.Prelude.{◌≡◌, ◌≤◌, length, IfOk, Err};
ghost use Rattle.sharing.specs.Admission.{admitted, answered, no_demand, Due, Exactly, NobodyBears};
ghost use Rattle.sharing.specs.Levies.{levy_parts};

use crate::levy::Levy;
use crate::rows::{MOST_ROWS, MemberRow};
use crate::weights::weigh;
use refusal::{Pot, Refusal};

// cents
const MOST_TOTAL: i64 = 50_000_000_000;

// kWh, over all rows
const MOST_ENERGY: u64 = 153_600_000;

// The test that every rule begins with: the total to be shared, or why there is none. `there` is how many entries the
// share list has.
#[tactic(auto, using(crate::proofs::Nobody::nobody_exactly))]
pub fn admit(total: i64, rows: &[MemberRow], there: usize) -> Result<u64, Refusal>
    ensures reply { result ≡ admitted total rows.now there }
    ensures due { IfOk result (λ t. Due t rows.now × (length rows.now ≤ there)) }
    ensures nobody { Exactly (result ≡ Err no_demand) (NobodyBears total rows.now there) }
{
    if !(0..=MOST_TOTAL).contains(&total) {
        return Err(Refusal::FieldOutOfRange { field: 1 });
    }
    let needed = rows.len();
    if needed > MOST_ROWS {
        return Err(Refusal::FieldOutOfRange { field: 2 });
    }
    let demand = weigh(rows, &|row| row.demand);
    if demand > MOST_ENERGY {
        return Err(Refusal::FieldOutOfRange { field: 3 });
    }
    let deviation = weigh(rows, &|row| row.deviation);
    if deviation > MOST_ENERGY {
        return Err(Refusal::FieldOutOfRange { field: 4 });
    }
    if there < needed {
        return Err(Refusal::TooFewRows { needed, there });
    }
    if total > 0 && demand == 0 {
        return Err(Refusal::NoDemand { pot: Pot::Unnamed });
    }
    Ok(total.unsigned_abs())
}

impl<'a> Levy<'a> {
    // The total with the rows that bear it, or why it is refused.
    pub(crate) fn admitted(
        total: i64,
        rows: &'a [MemberRow],
        there: usize,
    ) -> Result<Levy<'a>, Refusal>
        ensures reply { levy_parts result ≡ answered (admitted total rows.now there) (λ t. (t, rows.now)) }
        ensures room { IfOk result (λ _. length rows.now ≤ there) }
    {
        let total = admit(total, rows, there)?;
        Ok(Levy { total, rows })
    }
}
