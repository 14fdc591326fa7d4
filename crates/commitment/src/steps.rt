ghost use Rattle.std.specs.Prelude.{◌≡◌, ◌+◌, ◌<◌, ◌≤◌, Bool, ℕ, length, if◌then◌else◌};
ghost use Rattle.commitment.specs.Stretches.{listed, gaps};
ghost use Rattle.commitment.specs.CommitmentLaws.{SelfCommitted};
ghost use Rattle.commitment.specs.Commitment.{stays, held, fill, Chooses, bridged, smallest, joined, limit_of, limited, periods};

use crate::gaps::Gap;
use crate::stretch::{Stretch, Stretches, gap};

fn stays_on(mrt: u8, ran: u8, flag: bool) -> bool
    ensures { result ≡ stays mrt ran flag }
{
    flag || (0 < ran && ran < mrt)
}

// How long the period has run after the hour, if the hour belongs to it.
fn ran_on(on: bool, ran: u8) -> u8
    requires { ran < 255 }
    ensures { result ≡ (if on then ran + 1 else 0) }
{
    if on { ran + 1 } else { 0 }
}

// Step 1: the hours that are flagged or held by minimum run time, counted from the hour in which their period began.
fn held(flags: &[bool; 24], mrt: u8) -> [bool; 24]
    ensures { result ≡ held mrt flags.now }
{
    let mut hours = *flags;
    let mut ran = 0;
    for hour in hours.iter_mut() {
        let on = stays_on(mrt, ran, *hour);
        ran = ran_on(on, ran);
        *hour = on;
    }
    hours
}

// The gaps that are chosen are filled, each by how many gaps lie before it and by its hours.
fn fill<F: Fn(usize, u8) -> bool>(periods: &[Stretch], chosen: F) -> Stretches
    requires few { length periods.now ≤ 24 }
    requires callable { F.IsAlwaysCallable chosen }
    ensures { (c : ℕ → ℕ → Bool) → Chooses (F.post chosen) c → listed result ≡ fill c periods.now }
{
    let mut out = Stretches::none();
    let Some((first, rest)) = periods.split_first() else {
        return out;
    };
    let mut current = *first;
    for (at, next) in rest.iter().enumerate() {
        if chosen(at, gap(current, *next)) {
            current.last = next.last;
        } else {
            out.add(Some(current));
            current = *next;
        }
    }
    out.add(Some(current));
    out
}

// The smallest gap, the earliest on a tie.
fn smallest_gap(periods: &[Stretch]) -> Option<Gap>
    ensures { result ≡ smallest (gaps periods.now) }
{
    periods
        .array_windows::<2>()
        .enumerate()
        .map(|(at, [before, next])| Gap {
            at,
            hours: gap(*before, *next),
        })
        .min_by_key(|gap| gap.hours)
}

// Step 2: each gap of fewer than `mdt` hours is filled.
fn bridge(periods: &Stretches, mdt: u8) -> Stretches
    ensures { listed result ≡ bridged mdt (listed periods.now) }
{
    fill(periods.as_slice(), |_, hours| hours < mdt)
}

// One join: the two periods with the smallest gap.
fn join_smallest(periods: &Stretches) -> Stretches
    ensures { listed result ≡ joined (listed periods.now) }
{
    smallest_gap(periods.as_slice()).map_or(
        *periods,
        |gap| fill(periods.as_slice(), |at, _| at == gap.at),
    )
}

fn limit_of(mds: u8, carried: bool, periods: &Stretches) -> usize
    ensures { result ≡ limit_of mds carried (listed periods.now) }
{
    usize::from(mds) + usize::from(carried && periods.cover(1))
}

// Step 3: joins, as many as there are periods above the limit, since each leaves one fewer.
fn join_down(periods: &Stretches, limit: usize) -> Stretches
    ensures { listed result ≡ limited limit (listed periods.now) }
{
    let surplus = periods.as_slice().len().saturating_sub(limit);
    let mut joined = *periods;
    for _ in 0..surplus {
        joined = join_smallest(&joined);
    }
    joined
}

// The self-commitment periods of a day whose flagged hours are these.
pub fn periods(flags: &[bool; 24], mrt: u8, mdt: u8, mds: u8, carried_in: bool) -> Stretches
    ensures value { listed result ≡ periods mrt mdt mds carried_in flags.now }
    ensures law { 1 ≤ mds → SelfCommitted mrt mdt mds carried_in flags.now }
{
    let held = Stretches::of(&held(flags, mrt));
    let bridged = bridge(&held, mdt);
    let limit = limit_of(mds, carried_in, &bridged);
    join_down(&bridged, limit)
}
