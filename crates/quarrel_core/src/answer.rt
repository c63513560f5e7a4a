//! What the steps of a cosigner show against it.

use mtc_io::Bytes;

/// What the steps of a cosigner show against it.
#[derive(Debug, Drop)]
pub enum Quarrel {
    /// No two signatures are of one interval with different hashes.
    Agree,
    /// The numbers of the one-time keys of two signatures that are, and two different strings with
    /// one hash, both hashed in the opening of the proofs.
    Pair {
        first: u32,
        second: u32,
        x: Bytes,
        y: Bytes,
    },
}
