// A number handed in, and the least and the most that it may be.
#[derive(Clone, Copy)]
pub struct Field(pub i64, pub i64, pub i64);

// The first field out of range, by its position from 1.
#[derive(Clone, Copy, PartialEq, Eq, Debug)]
pub struct OutOfRange {
    pub field: usize,
}

mod checks;

pub use checks::check;
