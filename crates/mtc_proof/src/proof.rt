//! A proof as its parts.

/// A proof that was read. The interval `[start, end)` holds the entries of the log from `start` up
/// to `end`, without `end`; the reader doesn't test whether it is a subtree.
#[derive(Clone, Copy, Debug)]
pub struct Proof<'a> {
    pub start: u64,
    pub end: u64,
    /// The siblings of the entry's nodes from the leaf up.
    pub path: &'a [[u8; 32]],
    /// Signatures, one after the other, or no bytes.
    pub signatures: &'a [u8],
}

/// One signature of a proof.
#[derive(Clone, Copy, Debug, PartialEq, Eq)]
pub struct SigRef<'a> {
    /// The id of the cosigner, from 1 to 255 bytes.
    pub cosigner: &'a [u8],
    pub signature: &'a [u8],
}
