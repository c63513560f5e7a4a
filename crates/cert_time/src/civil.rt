//! A date with a time of day, as people and certificates write them.

/// A date and a time of day in UTC as they are written, whether or not the calendar and a clock
/// have them.
#[derive(Clone, Copy, Debug)]
pub struct CivilTime {
    pub year: u32,
    pub month: u16,
    pub day: u16,
    pub hour: u16,
    pub minute: u16,
    pub second: u16,
}
