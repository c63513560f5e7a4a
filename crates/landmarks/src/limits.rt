//! The most that a log may allow when it begins.

/// The most landmarks that a log may have active.
pub const MOST_ACTIVE: u32 = 10_000;

/// The most entries that a log may have.
pub const MOST_ENTRIES: u32 = 16_777_216;
