ghost use Rattle.std.specs.Prelude.{◌≤◌};

mod reading;

use hours::Hour;

// What a member, a place or a resource is known by, 1 to 65535.
#[derive(Clone, Copy)]
pub struct Id {
    pub number: u16,
    ghost bounds: { 1 ≤ number },
}

// An hour of a place or of a resource.
#[derive(Clone, Copy)]
pub(crate) struct Slot {
    pub(crate) id: Id,
    pub(crate) hour: Hour,
}

// A resource's own id, its member and its place.
#[derive(Clone, Copy)]
pub(crate) struct ResourceIds {
    pub(crate) own: Id,
    pub(crate) member: Id,
    pub(crate) place: Id,
}

pub(crate) use reading::behind;
