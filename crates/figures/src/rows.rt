ghost use Rattle.std.specs.Prelude.{◌≡◌, ◌≤◌, length};

use crate::standing::{Member, Standing};
use sharing::MemberRow;

mod filling;

// A pool's members beside the records that stand. A pool has at most 16 members.
#[derive(Clone, Copy)]
pub struct Roll<'a> {
    pub members: &'a [Member],
    pub standing: Standing<'a>,
    ghost few: { length members.now ≤ 16 },
}

// The rows of a pool's members, in their order: the first `count` of the items. An array with a count beside it, since
// nothing here is on the heap, and no list of the library is Copy. One type over these and a list of stretches would be a
// crate of its own for two fields and a line.
#[derive(Clone, Copy)]
pub struct Rows {
    items: [MemberRow; 16],
    count: usize,
    ghost room: { length items ≡ 16 },
    ghost few: { count ≤ 16 },
}
