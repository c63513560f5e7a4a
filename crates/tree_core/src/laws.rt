//! Laws of the definitions: the clauses are the laws, and the functions do nothing.

ghost use Rattle.byte_formats.specs.Types.{HashFunction};
ghost use Rattle.tree_core.specs.Laws.{IsTreeHash, SplitsAtLargestPower, SubtreesByPower};
ghost use Rattle.tree_core.specs.PathLaws.{IsInclusionPath, PathsByLength, PathsEvaluate};
ghost use Rattle.tree_core.specs.PathLaws.{SubtreePathsEvaluate};
ghost use Rattle.tree_core.specs.PathLaws.{WrongLengthByPath};

/// The law of the tree hash, for every hash function: the hash of no entries, of one, and of more
/// by their split at the largest power of two below their number (RFC 9162, section 2.1.1).
pub fn law_tree_hash_by_clauses()
    ensures hash { (h : HashFunction) → IsTreeHash h }
    ensures split { SplitsAtLargestPower }
{}

/// The law of subtrees: an interval is one exactly if it has entries and starts at a multiple of
/// the least power of two that is not below its length, in numbers without a bound.
pub fn law_subtrees_by_power()
    ensures { SubtreesByPower }
{}

/// The law of inclusion paths, for every hash function: the path of the only entry, and of one of
/// more by their split at the largest power of two below their number (RFC 9162, section 2.1.3.1);
/// it evaluates to the tree hash, and a path has a value exactly if it is as long as that one.
pub fn law_inclusion_paths_evaluate()
    ensures path { (h : HashFunction) → IsInclusionPath h }
    ensures evaluates { (h : HashFunction) → PathsEvaluate h }
    ensures lengths { (h : HashFunction) → PathsByLength h }
    ensures in_subtrees { (h : HashFunction) → SubtreePathsEvaluate h }
    ensures wrong_length { (h : HashFunction) → WrongLengthByPath h }
{}
