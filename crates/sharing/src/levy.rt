ghost use Rattle.std.specs.Prelude.{◌≡◌, ◌-◌};
ghost use Rattle.sharing.specs.Admission.{Due};

use crate::rows::MemberRow;

// A total that may be shared among these rows: no rule has anything in it to refuse.
#[derive(Clone, Copy)]
pub(crate) struct Levy<'a> {
    pub(crate) total: u64,
    pub(crate) rows: &'a [MemberRow],
    ghost due: { Due total rows.now },
}

impl<'a> Levy<'a> {
    // What is left to share where `borne` is borne already.
    pub(crate) fn without(self, borne: u64) -> Levy<'a>
        ensures total { result.total ≡ self.entry.total - borne }
        ensures rows { result.rows.now ≡ self.entry.rows.now }
    {
        Levy {
            total: self.total.saturating_sub(borne),
            rows: self.rows,
        }
    }
}
