//! Requests as their parts.

/// A request to hold the root of a larger log.
#[derive(Clone, Copy, Debug)]
pub struct AdvanceRequest<'a> {
    /// The id of the log, from 1 to 255 bytes.
    pub log: &'a [u8],
    /// The number of its entries.
    pub size: u64,
    /// Their tree hash.
    pub root: [u8; 32],
    /// The consistency proof of the entries that are held, the lowest hash first.
    pub proof: &'a [[u8; 32]],
}

/// A request to sign the subtree `[start, end)` of the log that is held.
#[derive(Clone, Copy, Debug)]
pub struct SubtreeRequest<'a> {
    /// The id of the log, from 1 to 255 bytes.
    pub log: &'a [u8],
    pub start: u64,
    pub end: u64,
    /// The hash of the subtree.
    pub hash: [u8; 32],
    /// The consistency proof of the subtree, the lowest hash first.
    pub proof: &'a [[u8; 32]],
}
