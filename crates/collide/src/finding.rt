//! What a comparison finds.

use mtc_io::Bytes;

/// What a comparison of two computations of one hash finds.
#[derive(Debug, Drop)]
pub enum Finding {
    /// What the hash is computed from is the same.
    Same,
    /// Two different strings with one hash, the first hashed in the first computation and the
    /// second in the second.
    Pair(Bytes, Bytes),
}
