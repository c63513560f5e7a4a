//! The lines of a report.

use mtc_io::Bytes;

/// What is said of an entry, which is named by its index in the log.
#[derive(Debug, Drop)]
pub enum Line {
    /// It has this dNSName, which lies under a watched domain.
    Match { index: u64, name: Bytes },
    /// It doesn't read as an entry.
    Unread { index: u64 },
}
