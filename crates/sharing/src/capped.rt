ghost use Rattle.std.specs.Prelude.{◌≡◌, ◌+◌, ◌≤◌, min, length, sum};
ghost use Rattle.sharing.specs.Admission.{most_total, admitted, answered, filled};
ghost use Rattle.sharing.specs.Rules.{both, cap, caps, own_amounts, capped};
ghost use Rattle.std.proofs.Common.{arith};
ghost use Rattle.sharing.specs.Tiers.{due_less, rest, capped_fair};

use crate::levy::Levy;
use crate::rows::{MOST_ROWS, MemberRow};
use crate::rule::{SharingRule, share_due};
use crate::weights::pro_rata;
use refusal::Refusal;

// cents per MWh
const MOST_RATE: u32 = 200_000;

// A tier over another rule: each member bears an amount of its own, by its deviation and at most its cap, and the rule below
// shares the rest.
#[derive(Clone, Copy)]
pub struct Capped<R> {
    // cents per MWh; above 200,000 it counts as 200,000
    pub rate: u32,
    pub below: R,
}

fn cap(rate: u32, deviation: u32) -> u64
    ensures { result ≡ cap rate deviation }
{
    u64::from(deviation) * u64::from(rate.min(MOST_RATE)) / 1000
}

// Lowers each row's amount to its cap.
fn hold_to_caps(rate: u32, rows: &[MemberRow], amounts: &mut [u64])
    requires { length amounts.old ≡ length rows.now }
    ensures { amounts.new ≡ both min amounts.old (caps rate rows.now) }
{
    for (i, row) in rows.iter().enumerate() {
        // Written by its place: of a list gone through beside another, a proof knows no entry afterwards.
        amounts[i] = amounts[i].min(cap(rate, row.deviation));
    }
}

// Each member's own amount, and their sum.
fn bear(rate: u32, levy: Levy<'_>, own: &mut [u64]) -> u64
    requires room { length own.old ≡ length levy.rows.now }
    ensures reply { result ≡ sum (own_amounts rate levy.entry.total levy.entry.rows.now) }
    ensures after { own.new ≡ own_amounts rate levy.entry.total levy.entry.rows.now }
{
    pro_rata(levy, |row| row.deviation, own);
    hold_to_caps(rate, levy.rows, own);
    own.iter().sum()
}

fn add_each(own: &[u64], shares: &mut [u64])
    requires room { length shares.old ≡ length own.now }
    requires fits { sum (both ◌+◌ own.now shares.old) ≤ most_total }
    ensures { shares.new ≡ both ◌+◌ own.now shares.old }
{
    for (i, amount) in own.iter().enumerate() {
        // Written by its place: of a list gone through beside another, a proof knows no entry afterwards.
        shares[i] += *amount;
    }
}

// The rule below shares what the own amounts leave, and they are added to its shares.
fn share_in_tier<R: SharingRule>(rate: u32, below: &R, levy: Levy<'_>, shares: &mut [u64])
    requires room { length shares.old ≡ length levy.rows.now }
    ensures { shares.new ≡ capped rate (R.SharingRule.meaning below.now) levy.entry.total levy.entry.rows.now }
{
    // There is no heap to take a list from, so there is room for as many as a rule takes.
    let mut own = [0; MOST_ROWS];
    let own = &mut own[..levy.rows.len()];
    let borne = bear(rate, levy, own);
    share_due(below, levy.without(borne), shares);
    add_each(own, shares);
}

impl<R> Capped<R> {
    // What each member bears in this tier, for a sheet that shows the working. The reply is their sum.
    pub fn own_amounts(
        &self,
        total: i64,
        rows: &[MemberRow],
        own: &mut [u64],
    ) -> Result<u64, Refusal>
        ensures reply { result ≡ answered (admitted total rows.now (length own.old)) (λ t. sum (own_amounts self.now.rate t rows.now)) }
        ensures after { own.new ≡ filled (admitted total rows.now (length own.old)) (λ t. own_amounts self.now.rate t rows.now) own.old }
    {
        let levy = Levy::admitted(total, rows, own.len())?;
        Ok(bear(self.rate, levy, &mut own[..rows.len()]))
    }
}

impl<R: SharingRule> SharingRule for Capped<R> {
    ghost meaning = { λ s t rows. capped s.rate (R.SharingRule.meaning s.below) t rows };

    ghost fair = { λ s t rows due.
        let left = rest s.rate t rows in
        capped_fair s.rate t rows (R.SharingRule.meaning s.below) (R.SharingRule.fair s.below left rows (due_less t left rows (omega arith) due)) };

    fn share(&self, total: i64, rows: &[MemberRow], shares: &mut [u64]) -> Result<(), Refusal> {
        let levy = Levy::admitted(total, rows, shares.len())?;
        share_in_tier(self.rate, &self.below, levy, &mut shares[..rows.len()]);
        Ok(())
    }
}
