ghost use Rattle.std.specs.Prelude.{◌≡◌, length, OnOk, unsigned_abs};
ghost use Rattle.std.proofs.Common.{sym, subst};
ghost use Rattle.sharing.specs.Rows.{demands};
ghost use Rattle.sharing.specs.Admission.{admitted, answered, filled};
ghost use Rattle.sharing.specs.ProRata.{UpTo};
ghost use Rattle.sharing.specs.Rules.{by_demand};
ghost use Rattle.sharing.specs.ShareLaw.{Fair};
ghost use Rattle.sharing.specs.Demanded.{by_demand-is, pro_rata_fair};

use crate::levy::Levy;
use crate::rows::MemberRow;
use crate::rule::SharingRule;
use crate::weights::pro_rata;
use refusal::Refusal;

// Each member bears by its demand.
#[derive(Clone, Copy)]
pub struct ByDemand;

// A total of zero gives zeros, also where nobody has demand.
fn by_demand(levy: Levy<'_>, shares: &mut [u64])
    requires room { length shares.old ≡ length levy.rows.now }
    ensures { shares.new ≡ by_demand levy.entry.total levy.entry.rows.now }
{
    if levy.total == 0 {
        shares.fill(0);
    } else {
        pro_rata(levy, |row| row.demand, shares);
    }
}

impl SharingRule for ByDemand {
    ghost meaning = { λ s t rows. by_demand t rows };

    ghost fair = { λ s t rows due. subst (Fair t rows) (sym (by_demand-is t rows)) (pro_rata_fair t rows due) };

    fn share(&self, total: i64, rows: &[MemberRow], shares: &mut [u64]) -> Result<(), Refusal>
        ensures reply { result ≡ answered (admitted total rows.now (length shares.old)) (λ _. tt) }
        ensures after { shares.new ≡ filled (admitted total rows.now (length shares.old)) (λ t. by_demand t rows.now) shares.old }
        ensures keeps { self.exit.now ≡ self.entry.now }
        ensures law { OnOk result (UpTo (unsigned_abs total) (demands rows.now) shares.new) }
    {
        let levy = Levy::admitted(total, rows, shares.len())?;
        by_demand(levy, &mut shares[..rows.len()]);
        Ok(())
    }
}
