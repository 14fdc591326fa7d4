ghost use Rattle.std.specs.Prelude.{◌≡◌, IfOk};
ghost use Rattle.figures.specs.Rolls.{listed};
ghost use Rattle.daybook.specs.Held.{held};
ghost use Rattle.daybook.specs.Lending.{Lends, CallsRoll};
ghost use Rattle.daybook.specs.Questions.{member_asked, row_asked, energy_asked, rows_of, pots_of, Pooled, Shareable};

use super::DayBook;
use crate::id::Id;
use figures::{Member, Roll, Rows, Standing};
use refusal::Refusal;
use sharing::MemberRow;

// Questions about members and the pool. They are answered while a draft is out, too.
impl<'a> DayBook<'a> {
    pub(crate) fn standing(&self) -> Standing<'_>
        ensures { Lends result (held self.now) }
    {
        Standing {
            places: self.places.all(),
            resources: self.resources.all(),
        }
    }

    pub(crate) fn roll(&self) -> Roll<'_>
        ensures { CallsRoll result (held self.now) }
    {
        Roll {
            members: self.members.all(),
            standing: self.standing(),
        }
    }

    fn asked_member(&self, id: i64) -> Result<Member, Refusal>
        ensures { result ≡ member_asked (held self.now) id }
    {
        let id = Id::read(id)?;
        self.member(id)
    }

    // A member's demand and deviation.
    pub fn row_of(&self, member: i64) -> Result<MemberRow, Refusal>
        ensures { result ≡ row_asked (held self.now) member }
    {
        let member = self.asked_member(member)?;
        Ok(self.standing().row_of(member.id))
    }

    // The rows of all members by rising id, as a sharing rule is told them.
    pub fn rows(&self) -> Rows
        ensures value { listed result ≡ rows_of (held self.now) }
        ensures law { Shareable (held self.now) (listed result) }
    {
        self.roll().rows()
    }

    // A member's energy lines, added up, in cents.
    pub fn energy_of(&self, member: i64) -> Result<i64, Refusal>
        ensures { result ≡ energy_asked (held self.now) member }
    {
        let member = self.asked_member(member)?;
        self.standing().priced_energy_of(member.id)
    }

    // The neutrality pot, which may be below zero, and the uplift pot, in cents.
    pub fn pots(&self) -> Result<(i64, u64), Refusal>
        ensures reply { result ≡ pots_of (held self.now) }
        ensures law { IfOk result (λ p. Pooled (held self.now) p) }
    {
        self.standing().pots()
    }
}
