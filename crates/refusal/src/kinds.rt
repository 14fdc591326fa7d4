ghost use Rattle.std.specs.Prelude.{◌≡◌};
ghost use Rattle.refusal.specs.Refusals.{kind_number, store_number, pot_number};

// What an id is registered as. Generators and loads are both resources.
#[derive(Clone, Copy, PartialEq, Eq, Debug)]
pub enum Kind {
    Member,
    Place,
    Resource,
}

// What can be full.
#[derive(Clone, Copy, PartialEq, Eq, Debug)]
pub enum Store {
    Table(Kind),
    Drafts,
    RecordFile,
}

// The amount that was to be shared: the neutrality pot is the sum of all energy, the uplift pot of all uplifts.
#[derive(Clone, Copy, PartialEq, Eq, Debug)]
pub enum Pot {
    Neutrality,
    Uplift,
    // a rule was asked by itself, for no pot of a day
    Unnamed,
}

impl Kind {
    pub fn number(self) -> u64
        ensures { result ≡ kind_number self }
    {
        match self {
            Kind::Member => 1,
            Kind::Place => 2,
            Kind::Resource => 3,
        }
    }
}

impl Store {
    pub fn number(self) -> u64
        ensures { result ≡ store_number self }
    {
        match self {
            Store::Table(kind) => kind.number(),
            Store::Drafts => 4,
            Store::RecordFile => 9,
        }
    }
}

impl Pot {
    pub fn number(self) -> u64
        ensures { result ≡ pot_number self }
    {
        match self {
            Pot::Unnamed => 0,
            Pot::Neutrality => 1,
            Pot::Uplift => 2,
        }
    }
}
