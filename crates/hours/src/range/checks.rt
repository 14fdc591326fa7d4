ghost use Rattle.std.specs.Prelude.{◌≡◌, MatchResult};
ghost use Rattle.hours.specs.Ranges.{fits, checked, Inside, Outside};

use super::{Field, OutOfRange};

impl Field {
    fn fits(&self) -> bool
        ensures { result ≡ fits self.now }
    {
        let Field(value, least, most) = *self;
        least <= value && value <= most
    }
}

// Nothing, or the first field out of range.
pub fn check(fields: &[Field]) -> Result<(), OutOfRange>
    ensures value { result ≡ checked fields.now }
    ensures cases { MatchResult result (λ _. Inside fields.now) (λ e. Outside fields.now e) }
{
    if let Some(i) = fields.iter().position(|field| !field.fits()) {
        return Err(OutOfRange { field: i + 1 });
    }
    Ok(())
}
