ghost use Rattle.hours.specs.Bounds.{HourBounds, PriceBounds};

mod making;
mod prices;

// What a resource did in one hour, in kWh: supply above zero, load below.
#[derive(Clone, Copy)]
pub struct HourRecord {
    pub day_ahead: i32,
    pub meter: i32,
    pub self_schedule: u32,
    pub committed: bool,
    ghost bounds: { HourBounds day_ahead meter self_schedule },
}

// The prices of one hour at a place, in cents per MWh.
#[derive(Clone, Copy)]
pub struct Price {
    pub day_ahead: i32,
    pub real_time: i32,
    ghost bounds: { PriceBounds day_ahead real_time },
}
