ghost use Rattle.std.specs.Prelude.{◌≡◌, ℕ, List, length, take, Err, OnOk, unsigned_abs};
ghost use Rattle.sharing.specs.declared.rows.MemberRow.{MemberRow};
ghost use Rattle.sharing.specs.Admission.{admitted, answered, filled, no_demand, Due, Exactly, NobodyBears};
ghost use Rattle.sharing.specs.ShareLaw.{Fair};

use crate::levy::Levy;
use crate::rows::MemberRow;
use refusal::Refusal;

// A way to share a total among the members. Its meaning says who bears how much, and its author owes the share law.
pub trait SharingRule {
    ghost meaning: { Self → ℕ → List MemberRow → List ℕ };

    // One share for each row, from the front of the list; or a refusal, and the list stays as it was.
    fn share(&self, total: i64, rows: &[MemberRow], shares: &mut [u64]) -> Result<(), Refusal>
        ensures reply { result ≡ answered (admitted total rows.now (length shares.old)) (λ _. tt) }
        ensures after { shares.new ≡ filled (admitted total rows.now (length shares.old)) (λ t. meaning self.now t rows.now) shares.old }
        ensures keeps { self.exit.now ≡ self.entry.now };

    ghost fair: { (s : Self) (t : ℕ) (rows : List MemberRow) → Due t rows → Fair t rows (meaning s t rows) };
}

// What an answer comes to under every rule, ours and a pool's own.
#[tactic(auto, using(crate::proofs::Nobody::answered_nobody))]
pub fn share_out<R: SharingRule>(
    rule: &R,
    total: i64,
    rows: &[MemberRow],
    shares: &mut [u64],
) -> Result<(), Refusal>
    ensures reply { result ≡ answered (admitted total rows.now (length shares.old)) (λ _. tt) }
    ensures after { shares.new ≡ filled (admitted total rows.now (length shares.old)) (λ t. R.SharingRule.meaning rule.now t rows.now) shares.old }
    ensures keeps { rule.exit.now ≡ rule.entry.now }
    ensures law { OnOk result (Fair (unsigned_abs total) rows.now (take (length rows.now) shares.new)) }
    ensures nobody { Exactly (result ≡ Err no_demand) (NobodyBears total rows.now (length shares.old)) }
{
    rule.share(total, rows, shares)
}

// A levy is shared: the rule has nothing to refuse.
pub(crate) fn share_due<R: SharingRule>(rule: &R, levy: Levy<'_>, shares: &mut [u64])
    requires room { length shares.old ≡ length levy.rows.now }
    ensures after { shares.new ≡ R.SharingRule.meaning rule.now levy.entry.total levy.entry.rows.now }
    ensures law { Fair levy.entry.total levy.entry.rows.now (R.SharingRule.meaning rule.now levy.entry.total levy.entry.rows.now) }
{
    let _ = rule.share(levy.total as i64, levy.rows, shares);
}
