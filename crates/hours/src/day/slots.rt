ghost use Rattle.std.specs.Prelude.{◌≡◌, ◌-◌, replicate, Some, None};
ghost use Rattle.hours.specs.Days.{hour_of, slot_at, placed};

use super::{Day, Hour};
use crate::range::{Field, OutOfRange, check};

impl Hour {
    pub fn new(hour: i64) -> Result<Hour, OutOfRange>
        ensures { result ≡ hour_of hour }
    {
        check(&[Field(hour, 1, 24)])?;
        Ok(Hour { number: hour as u8 })
    }

    // Where the hour stands in an array of the day.
    fn index(self) -> usize
        ensures { result ≡ self.number - 1 }
    {
        usize::from(self.number) - 1
    }
}

impl<T: Copy> Day<T> {
    pub fn empty() -> Day<T>
        ensures { result ≡ record { slots = replicate 24 None } }
    {
        Day { slots: [None; 24] }
    }

    pub fn get(&self, at: Hour) -> Option<T>
        ensures { result ≡ slot_at self.now.slots at.number }
    {
        self.slots[at.index()]
    }

    pub fn set(&mut self, at: Hour, value: T)
        ensures { self.new ≡ record { slots = placed self.old.slots at.number (Some value) } }
    {
        self.slots[at.index()] = Some(value);
    }

    // What was struck, if anything stood there.
    pub fn strike(&mut self, at: Hour) -> Option<T>
        ensures reply { result ≡ slot_at self.old.slots at.number }
        ensures after { self.new ≡ record { slots = placed self.old.slots at.number None } }
    {
        self.slots[at.index()].take()
    }
}
