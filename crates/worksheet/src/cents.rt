use std::fmt;

// An amount in thousandths of a cent, shown in cents.
#[derive(Clone, Copy)]
pub struct Cents(pub i64);

impl fmt::Display for Cents {
    fn fmt<W: fmt::Write>(&self, f: &mut fmt::Formatter<W>) -> fmt::Result {
        let sign = if self.0 < 0 { "-" } else { "" };
        let size = self.0.unsigned_abs();
        let cents = size / 1000;
        let rest = size % 1000;
        write!(f, "{sign}{cents}.{rest:03}")
    }
}
