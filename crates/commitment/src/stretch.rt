ghost use Rattle.std.specs.Prelude.{◌≡◌, ◌≤◌, length};

mod scan;

// Hours from the first to the last, both among them.
#[derive(Clone, Copy, PartialEq, Eq, Debug)]
pub struct Stretch {
    pub first: u8,
    pub last: u8,
}

// The first `count` of the items, in the order of the day. It is an array with a count beside it: nothing here is on
// the heap, and the value is Copy, which no list of the library is.
#[derive(Clone, Copy)]
pub struct Stretches {
    items: [Stretch; 24],
    count: usize,
    ghost room: { length items ≡ 24 },
    ghost few: { count ≤ 24 },
}

pub use scan::gap;
