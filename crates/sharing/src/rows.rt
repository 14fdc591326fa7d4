// A rule takes no more rows.
pub(crate) const MOST_ROWS: usize = 16;

// What a rule is told of a member: its demand and its deviation, in kWh.
#[derive(Clone, Copy)]
pub struct MemberRow {
    pub id: u16,
    pub demand: u32,
    pub deviation: u32,
}
