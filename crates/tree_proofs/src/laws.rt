//! Laws of consistency proofs: the clauses are the laws, and the functions do nothing.

ghost use Rattle.byte_formats.specs.Types.{HashFunction};
ghost use Rattle.tree_proofs.specs.ProofLaws.{CheckpointsAreShown, IsConsistencyProof, IsRfcProof};
ghost use Rattle.tree_proofs.specs.ProofLaws.{PassesWhereChecks, ProofsCheck, WrongLengthByProof};

/// The law of consistency proofs, for every hash function: the proof of an interval by the split of
/// its list (the draft on Merkle Tree Certificates, where it makes subtree consistency proofs). For
/// the first entries of a list it is the proof of RFC 9162 (section 2.1.4.1). That of a subtree
/// checks for the tree hashes of the subtree and of the list, a proof passes exactly if it checks,
/// and the answer is `WrongLength` exactly if the proof is not as long as the made one.
pub fn law_consistency_proofs_check()
    ensures proof { (h : HashFunction) → IsConsistencyProof h }
    ensures rfc { (h : HashFunction) → IsRfcProof h }
    ensures checks { (h : HashFunction) → ProofsCheck h }
    ensures passes { (h : HashFunction) → PassesWhereChecks h }
    ensures wrong_length { (h : HashFunction) → WrongLengthByProof h }
{}

/// What the two tests of a checkpoint answer, for every hash function. `Checkpoint::is_prefix_of`
/// answers true exactly if there are no entries and the proof has no hash, or there are some and
/// the proof checks; `Checkpoint::has_subtree` exactly if the proof checks.
pub fn law_checkpoints_are_shown()
    ensures { (h : HashFunction) → CheckpointsAreShown h }
{}
