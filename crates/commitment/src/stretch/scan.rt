ghost use Rattle.std.specs.Prelude.{◌≡◌, ◌≤◌, ◌&&◌, [], length, nat_le};
ghost use Rattle.commitment.specs.StretchLaws.{Longest};
ghost use Rattle.commitment.specs.Stretches.{listed, added, ended, going, stretches, covers, gap};

use super::{Stretch, Stretches};

impl Stretch {
    // Whether the hour is among them.
    pub fn has(&self, hour: u8) -> bool
        ensures { result ≡ (nat_le self.now.first hour && nat_le hour self.now.last) }
    {
        (self.first..=self.last).contains(&hour)
    }
}

// The hours between a stretch and the next.
pub fn gap(p: Stretch, q: Stretch) -> u8
    ensures { result ≡ gap p q }
{
    q.first.saturating_sub(p.last).saturating_sub(1)
}

impl Stretches {
    pub(crate) fn none() -> Stretches
        ensures { listed result ≡ [] }
    {
        Stretches {
            items: [Stretch { first: 0, last: 0 }; 24],
            count: 0,
        }
    }

    pub(crate) fn add(&mut self, p: Option<Stretch>)
        ensures { listed self.new ≡ added (listed self.old) p }
    {
        let Some(p) = p else {
            return;
        };
        if self.count < 24 {
            self.items[self.count] = p;
            self.count += 1;
        }
    }

    pub fn as_slice(&self) -> &[Stretch]
        ensures value { result.now ≡ listed self.now }
        ensures few { length result.now ≤ 24 }
    {
        &self.items[..self.count]
    }

    pub fn cover(&self, hour: u8) -> bool
        ensures { result ≡ covers (listed self.now) hour }
    {
        self.as_slice().iter().any(|stretch| stretch.has(hour))
    }
}

fn ended_at(hour: u8, began: Option<u8>, marked: bool) -> Option<Stretch>
    ensures { result ≡ ended hour began marked }
{
    began.filter(|_| !marked).map(|first| Stretch {
        first,
        last: hour.saturating_sub(1),
    })
}

fn going_at(hour: u8, began: Option<u8>, marked: bool) -> Option<u8>
    ensures { result ≡ going hour began marked }
{
    marked.then_some(began.unwrap_or(hour))
}

impl Stretches {
    // The longest stretches of marked hours.
    pub fn of(marks: &[bool; 24]) -> Stretches
        ensures value { listed result ≡ stretches marks.now }
        ensures law { Longest marks.now (listed result) }
    {
        let mut found = Stretches::none();
        let mut began = None;
        for (hour, marked) in (1..).zip(marks) {
            found.add(ended_at(hour, began, *marked));
            began = going_at(hour, began, *marked);
        }
        found.add(ended_at(25, began, false));
        found
    }
}
