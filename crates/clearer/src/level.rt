// The wait level of the order ZONE.
#[derive(Clone, Copy)]
pub struct ZoneLevel {
    pub zone: i32,
    pub rank: i32,
}
