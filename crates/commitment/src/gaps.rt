// A gap between two periods: how many gaps lie before it, and its hours.
#[derive(Clone, Copy)]
pub struct Gap {
    pub at: usize,
    pub hours: u8,
}
