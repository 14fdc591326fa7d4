ghost use Rattle.std.specs.Prelude.{◌≡◌, ℕ, ◌+◌, ◌≤◌, length, map, sum};
ghost use Rattle.sharing.specs.declared.rows.MemberRow.{MemberRow};
ghost use Rattle.sharing.specs.Admission.{most_total, most_rows, most_energy};
ghost use Rattle.sharing.specs.ProRata.{quotient, part, pro_rata, UpTo};

use crate::levy::Levy;
use crate::rows::MemberRow;

// The weight of all, of any size: so few numbers of 32 bits cannot pass 64.
pub(crate) fn weigh<W: Fn(&MemberRow) -> u32>(rows: &[MemberRow], weight: &W) -> u64
    ghost w: { MemberRow → ℕ }
    requires callable { W.IsAlwaysCallable weight.now }
    requires weighs { (row : _) (n : _) → W.post weight.now row n → n ≡ w row.now }
    requires few { length rows.now ≤ most_rows }
    ensures { result ≡ sum (map w rows.now) }
{
    rows.iter().map(|row| u64::from(weight(row))).sum()
}

// What members of weight `upto` bear together of the total; nothing where nobody has weight.
fn quotient(total: u64, whole: u64, upto: u64) -> u64
    requires low { total ≤ most_total }
    requires light { upto ≤ most_energy }
    ensures { result ≡ quotient total whole upto }
{
    (total * upto).checked_div(whole).unwrap_or(0)
}

// One member's share. No share is rounded by itself, so the fractions are not lost: they move on to the next member.
fn part(total: u64, whole: u64, before: u64, weight: u64) -> u64
    requires low { total ≤ most_total }
    requires light { before + weight ≤ most_energy }
    ensures { result ≡ part total whole before weight }
{
    quotient(total, whole, before + weight) - quotient(total, whole, before)
}

// One share for each row, by the weight that `weight` reads off it.
pub(crate) fn pro_rata<W: Fn(&MemberRow) -> u32>(levy: Levy<'_>, weight: W, shares: &mut [u64])
    ghost w: { MemberRow → ℕ }
    requires callable { W.IsAlwaysCallable weight }
    requires weighs { (row : _) (n : _) → W.post weight row n → n ≡ w row.now }
    requires light { sum (map w levy.rows.now) ≤ most_energy }
    requires room { length shares.old ≡ length levy.rows.now }
    ensures after { shares.new ≡ pro_rata levy.entry.total (map w levy.entry.rows.now) }
    ensures law { UpTo levy.entry.total (map w levy.entry.rows.now) shares.new }
{
    let whole = weigh(levy.rows, &weight);
    let mut before = 0;
    for (i, row) in levy.rows.iter().enumerate() {
        let weight = u64::from(weight(row));
        // Written by its place: of a list gone through beside another, a proof knows no entry afterwards.
        shares[i] = part(levy.total, whole, before, weight);
        before += weight;
    }
}
