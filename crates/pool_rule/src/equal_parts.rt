ghost use Rattle.std.specs.Prelude.{◌≡◌, ◌/◌, ◌%◌, ◌≤◌, length};
ghost use Rattle.sharing.specs.Admission.{most_total, Due};
ghost use Rattle.pool_rule.specs.EqualParts.{bearers, part_of, left_after, equal_parts};
ghost use Rattle.pool_rule.specs.Evenly.{equal_parts_fair};

use refusal::Refusal;
use sharing::{MemberRow, SharingRule, admit};

// The members with demand bear equal parts, the first of them the odd cents.
#[derive(Clone, Copy)]
pub struct EqualParts;

// How many members have demand.
fn bearers(rows: &[MemberRow]) -> u64
    ensures { result ≡ bearers rows.now }
{
    rows.iter().filter(|row| row.demand > 0).count() as u64
}

// The even part, and the cents left over.
fn divided(total: u64, among: u64) -> (u64, u64)
    ensures { result ≡ (total / among, total % among) }
{
    let even = total.checked_div(among).unwrap_or(0);
    let left = total.checked_rem(among).unwrap_or(total);
    (even, left)
}

// The even part, and one of the cents left over while there are any.
fn part_of(even: u64, left: u64, row: &MemberRow) -> u64
    requires { even ≤ most_total }
    ensures { result ≡ part_of even left row.now }
{
    if row.demand > 0 {
        even + left.min(1)
    } else {
        0
    }
}

fn left_after(left: u64, row: &MemberRow) -> u64
    ensures { result ≡ left_after left row.now }
{
    if row.demand > 0 {
        left.saturating_sub(1)
    } else {
        left
    }
}

fn share_equally(total: u64, rows: &[MemberRow], shares: &mut [u64])
    requires due { Due total rows.now }
    requires room { length shares.old ≡ length rows.now }
    ensures { shares.new ≡ equal_parts total rows.now }
{
    let (even, mut left) = divided(total, bearers(rows));
    for (i, row) in rows.iter().enumerate() {
        // Written by its place: of a list gone through beside another, a proof knows no entry afterwards.
        shares[i] = part_of(even, left, row);
        left = left_after(left, row);
    }
}

impl SharingRule for EqualParts {
    ghost meaning = { λ s t rows. equal_parts t rows };

    ghost fair = { λ s t rows due. equal_parts_fair t rows due };

    fn share(&self, total: i64, rows: &[MemberRow], shares: &mut [u64]) -> Result<(), Refusal> {
        let total = admit(total, rows, shares.len())?;
        share_equally(total, rows, &mut shares[..rows.len()]);
        Ok(())
    }
}
