//! What is known of a certificate that was accepted.

/// By what a certificate was accepted.
#[derive(Clone, Copy, Debug, PartialEq, Eq)]
pub enum By {
    /// The subtree is one whose hash the store trusts.
    Landmark,
    /// These cosigners count: bit i is set exactly if the one at index i of the store does.
    Cosigners(u64),
}

/// A certificate that was accepted: the entry's index in the log, the subtree `[start, end)` that
/// its proof names, the hash that the proof gives it, and by what the hash was trusted.
#[derive(Clone, Copy, Debug, PartialEq, Eq)]
pub struct Accepted {
    pub index: u64,
    pub start: u64,
    pub end: u64,
    pub hash: [u8; 32],
    pub by: By,
}
