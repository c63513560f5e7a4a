//! A round of a drill, as it is drawn.

use crate::turns::{Turn, Turns};

/// What a round asks for.
#[derive(Debug, Drop)]
pub struct Round {
    /// Entries are issued, from one to three.
    pub entries: Turns,
    /// Each cosigner holds the log's root.
    pub advances: Turns,
    /// A landmark is set, or none.
    pub landmark: Option<Turn>,
    /// The entry of this index gets a certificate.
    pub index: u64,
    /// Each cosigner signs all of the log.
    pub signs: Turns,
}
