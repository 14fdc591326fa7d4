mod changes;
mod reads;
mod slots;

// Why an entry is not inserted.
#[derive(Clone, Copy, PartialEq, Eq, Debug)]
pub enum Refused {
    InUse,
    Full,
}

// The first `len` of the lent slots are the entries, of which there are never more than `limit`.
// A slice with a length beside it, since the memory is the caller's and nothing is allocated.
// That keys rise is no fact of the type: it would ask a key of every `E`, and a table is opened for entries of any type.
#[derive(Drop)]
pub struct Table<'a, E> {
    slots: &'a mut [E],
    len: usize,
    limit: usize,
}
