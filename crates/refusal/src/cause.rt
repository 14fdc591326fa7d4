ghost use Rattle.std.specs.Prelude.{◌≡◌};
ghost use Rattle.refusal.specs.Refusals.{number_of, a_of, b_of};

use crate::kinds::{Kind, Pot, Store};

// Why a call was refused. It changed nothing.
#[derive(Clone, Copy, PartialEq, Eq, Debug)]
pub enum Refusal {
    // a field, by its position from 1
    FieldOutOfRange { field: usize },
    // rows of a sheet or entries of a list
    TooFewRows { needed: usize, there: usize },
    NotRegistered { id: u16, kind: Kind },
    InUse { id: u16, kind: Kind },
    Full { store: Store },
    DraftOut { draft: u16 },
    // no draft is out with the slip's day and number
    NoSuchDraft { draft: u16 },
    // an hour record stands and its place has no price for the hour
    PriceMissing { resource: u16, hour: u8 },
    // a total above zero, and nobody with demand to bear it
    NoDemand { pot: Pot },
    NothingToStrike { resource: u16, hour: u8 },
}

impl Refusal {
    pub fn number(&self) -> u8
        ensures { result ≡ number_of self.now }
    {
        match self {
            Refusal::FieldOutOfRange { .. } => 5,
            Refusal::TooFewRows { .. } => 7,
            Refusal::NotRegistered { .. } => 8,
            Refusal::InUse { .. } => 9,
            Refusal::Full { .. } => 10,
            Refusal::DraftOut { .. } => 11,
            Refusal::NoSuchDraft { .. } => 12,
            Refusal::PriceMissing { .. } => 13,
            Refusal::NoDemand { .. } => 14,
            Refusal::NothingToStrike { .. } => 15,
        }
    }

    // The first detail.
    pub fn a(&self) -> u64
        ensures { result ≡ a_of self.now }
    {
        match *self {
            Refusal::FieldOutOfRange { field } => field as u64,
            Refusal::TooFewRows { needed, .. } => needed as u64,
            Refusal::NotRegistered { id, .. } | Refusal::InUse { id, .. } => id.into(),
            Refusal::Full { store } => store.number(),
            Refusal::DraftOut { draft } | Refusal::NoSuchDraft { draft } => draft.into(),
            Refusal::PriceMissing { resource, .. } | Refusal::NothingToStrike { resource, .. } =>
                resource.into(),
            Refusal::NoDemand { pot } => pot.number(),
        }
    }

    // The second detail.
    pub fn b(&self) -> u64
        ensures { result ≡ b_of self.now }
    {
        match *self {
            Refusal::TooFewRows { there, .. } => there as u64,
            Refusal::NotRegistered { kind, .. } | Refusal::InUse { kind, .. } => kind.number(),
            Refusal::PriceMissing { hour, .. } | Refusal::NothingToStrike { hour, .. } =>
                hour.into(),
            Refusal::FieldOutOfRange { .. }
            | Refusal::Full { .. }
            | Refusal::DraftOut { .. }
            | Refusal::NoSuchDraft { .. }
            | Refusal::NoDemand { .. } => 0,
        }
    }
}
