ghost use Rattle.tariff.specs.Bounds.{BidBounds, GeneratorBounds};

mod registering;

// The numbers that a generator is registered with, as they come: any of them may be out of range.
#[derive(Clone, Copy)]
pub struct GeneratorForm {
    pub min_load: i64,
    pub load_cost: i64,
    pub start_up: i64,
    pub mrt: i64,
    pub mdt: i64,
    pub mds: i64,
    pub carried: i64,
    pub b1: i64,
    pub u1: i64,
    pub b2: i64,
    pub u2: i64,
    pub b3: i64,
}

// The price of energy by steps, in cents per MWh: b1 up to u1 kWh, b2 from u1 to u2, b3 above.
#[derive(Clone, Copy)]
pub struct EnergyBid {
    pub b1: i32,
    pub u1: u32,
    pub b2: i32,
    pub u2: u32,
    pub b3: i32,
    ghost bounds: { BidBounds b1 u1 b2 u2 b3 },
}

// A generator: minimum load in kWh, the cost of running at it for an hour and of a start-up in cents, minimum run and
// down time in hours, maximum daily start-ups, and whether it was already running when the day began.
#[derive(Clone, Copy)]
pub struct Generator {
    pub min_load: u32,
    pub load_cost: u32,
    pub start_up: u32,
    pub mrt: u8,
    pub mdt: u8,
    pub mds: u8,
    pub carried_in: bool,
    pub bid: EnergyBid,
    ghost bounds: { GeneratorBounds min_load load_cost start_up mrt mdt mds bid.u1 },
}
