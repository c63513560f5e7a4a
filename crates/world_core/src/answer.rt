//! What an audit answers.

use mtc_io::Bytes;

/// What an audit answers.
#[derive(Debug, Drop)]
pub enum Audit {
    /// The list is another one: it is too short, or has another hash than the one that is wanted.
    Foreign { wanted: [u8; 32], found: [u8; 32] },
    /// No export supports the acceptance.
    Unrecorded,
    /// The certificate's entry stands in the list at this index, with its key.
    Stands(u64),
    /// Two different strings with one hash: the first is hashed for the list or a key of it, the
    /// second for the certificate or in the cosigner's proofs.
    Pair(Bytes, Bytes),
}
