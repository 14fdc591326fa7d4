ghost use Rattle.std.specs.Prelude.{◌≡◌, ⊤};
ghost use Rattle.hours.specs.Bounds.{LimitBounds};

use std::alloc::AllocError;

mod slots;

// An hour of the day, 1 to 24.
#[derive(Clone, Copy)]
pub struct Hour {
    pub number: u8,
    ghost bounds: { LimitBounds number },
}

// Twenty-four slots, one an hour; a slot without a value counts as zeros.
#[derive(Copy)]
pub struct Day<T: Copy> {
    pub slots: [Option<T>; 24],
}

// By hand: the derived clone goes slot by slot, and would owe that no T is too large for a day of them.
impl<T: Copy> Clone for Day<T> {
    ghost is_clone = { λ day other. other ≡ day };

    ghost is_infallible = { λ _. ⊤ };

    fn clone(&self) -> Result<Day<T>, AllocError> {
        Ok(*self)
    }
}
