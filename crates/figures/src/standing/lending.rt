ghost use Rattle.std.specs.Prelude.{◌≡◌};
ghost use Rattle.figures.specs.Standing.{seen, lent};

use super::{Place, Resource, Standing};

// A pool has no more.
const MOST_RESOURCES: usize = 32;

impl<'a> Standing<'a> {
    // Nothing where there are more resources than a pool has.
    pub fn new(places: &'a [Place], resources: &'a [Resource]) -> Option<Standing<'a>>
        ensures { seen result ≡ lent places.now resources.now }
    {
        // Tested here, as in `Roll::new`: what is made differs, and so does what its type asks.
        if resources.len() > MOST_RESOURCES {
            return None;
        }
        Some(Standing { places, resources })
    }
}
