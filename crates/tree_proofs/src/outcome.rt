//! What a consistency proof gives.

/// What a consistency proof gives: the hash of the subtree and the root of the list.
#[derive(Clone, Copy, PartialEq, Eq, Debug)]
pub struct Opened {
    pub subtree: [u8; 32],
    pub root: [u8; 32],
}
