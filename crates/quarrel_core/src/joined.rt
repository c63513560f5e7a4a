//! What two proofs give together.

use mtc_io::Bytes;
use tree_proofs::Hashes;

/// What the proof of a subtree and the proof of its list in a longer one give together. What the
/// variants say of their values holds if both proofs check
/// ([`law_proofs_join`](crate::laws::law_proofs_join)).
#[derive(Debug, Drop)]
pub enum Joined {
    /// The proof of the subtree in the longer list, the lowest hash first.
    Proof(Hashes),
    /// Two different strings with one hash, the first hashed in the opening of the first proof and
    /// the second in that of the second.
    Pair(Bytes, Bytes),
    /// A proof has another length than the proof that is made of such a subtree.
    Neither,
}
