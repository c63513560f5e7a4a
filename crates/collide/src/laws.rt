//! Laws of the strings that are hashed: the clauses are the laws, and the functions do nothing.

ghost use Rattle.byte_formats.specs.Types.{HashFunction};
ghost use Rattle.collide.specs.Laws.{AreInputs, ListsExtract, PathsExtract, ProofsExtract};

use tree_core::TreeHash;

/// The law of the strings that are hashed in a tree hash, for every hash function: those of no
/// entries, of one, and of more by their split at the largest power of two below their number (RFC
/// 9162, section 2.1.1).
pub fn law_inputs_by_clauses()
    ensures { (h : HashFunction) → AreInputs h }
{}

/// The law of extraction from consistency proofs: for every list and every proof that checks for
/// its length and tree hash, the proof's node is the tree hash of the list's own subtree, or the
/// list and the proof show two different strings with one hash.
pub fn law_proofs_extract<H: TreeHash>()
    ensures { ProofsExtract H.hash }
{}

/// The same from inclusion paths: for every list and every path that gives the tree hash of one of
/// its subtrees, the entry is the one that the list has there, or the list and the path show two
/// different strings with one hash.
pub fn law_paths_extract<H: TreeHash>()
    ensures { PathsExtract H.hash }
{}

/// The same from lists: two lists of one length and one tree hash are the same, or they show two
/// different strings with one hash.
pub fn law_lists_extract<H: TreeHash>()
    ensures { ListsExtract H.hash }
{}
