//! Laws of joined proofs and of Signs in conflict: the clauses are the laws, and the functions do
//! nothing.

ghost use Rattle.byte_formats.specs.Types.{HashFunction};
ghost use Rattle.quarrel_core.specs.ConflictLaws.{ConflictsAreFirst, KeysRise, QuarrelsCollide};
ghost use Rattle.quarrel_core.specs.Laws.{MadeProofsJoin, OneSubtree, ProofsJoin};

use tree_core::TreeHash;

/// The law of joined proofs. Let a proof check for a subtree in n entries, and another for these n
/// in a list of m, and let their hashes have 32 bytes. Then the joined proof checks for the subtree
/// in the list of m, and hashes no string that neither of the two hashes. Or there are two
/// different strings with one hash, one hashed in each proof.
pub fn law_proofs_join<H: TreeHash>()
    ensures { ProofsJoin H.hash }
{}

/// Two proofs that check for one subtree, at one size and root, have one hash for it, or show two
/// different strings with one hash, one hashed in each proof.
pub fn law_proofs_of_one_subtree<H: TreeHash>()
    ensures { OneSubtree H.hash }
{}

/// For every hash function, the made proof of a subtree in the first entries of a list and the made
/// proof of these entries in the whole list join to the made proof of the subtree in the list.
pub fn law_joined_proofs_are_made()
    ensures { (h : HashFunction) → MadeProofsJoin h }
{}

/// The steps that are found in conflict are the first: no step before the second one is in conflict
/// with an earlier step, and none before the first one with the second. If none are found, no two
/// steps are in conflict. Of steps that are allowed, the numbers of one-time keys are in the order
/// of the steps.
pub fn law_conflicts_are_first()
    ensures indices { ConflictsAreFirst }
    ensures keys { (h : HashFunction) → KeysRise h }
{}

/// Two Signs of one interval with different hashes, among steps that are allowed, show two
/// different strings with one hash in the opening of the steps' proofs.
pub fn law_quarrels_collide<H: TreeHash>()
    ensures { QuarrelsCollide H.hash }
{}
