//! Two lists with one tree hash.

ghost use Rattle.std.specs.Prelude.{◌≡◌, ◌≢◌, ◌<◌, length, IfOk};
ghost use Rattle.tree_core.specs.Tree.{tree_hash};
ghost use Rattle.collide.specs.Comparison.{Compares, WhereFound};
ghost use Rattle.collide.specs.Extraction.{Extracts};
ghost use Rattle.collide.specs.Inputs.{inputs_of};

use crate::Finding;
use crate::comparing::{Halt, Roots, compare_leaves, compare_pairs};
use mtc_io::Memory;
use std::alloc::Global;
use tree_core::TreeHash;
use tree_proofs::{EntryList, halves};

// The tree hashes of two lists of one length.
fn compare_lists<H: TreeHash, L: EntryList>(
    alloc: Global,
    first: &L,
    second: &L,
) -> Result<Roots, Halt>
    requires some { 0 < length (L.texts first.now) }
    requires length { length (L.texts first.now) ≡ length (L.texts second.now) }
    ensures compares { Compares H.hash (L.texts first.now ≡ L.texts second.now)
        (tree_hash H.hash (L.texts first.now)) (tree_hash H.hash (L.texts second.now))
        (inputs_of H.hash (L.texts first.now)) (inputs_of H.hash (L.texts second.now))
        result }
    ensures apart { WhereFound (L.texts first.now ≢ L.texts second.now) result }
{
    if first.len() == 1 {
        return compare_leaves::<H>(alloc, first.entry(0), second.entry(0));
    }
    let (first_left, first_right) = halves(first);
    let (second_left, second_right) = halves(second);
    let left = compare_lists::<H, L>(alloc, &first_left, &second_left)?;
    let right = compare_lists::<H, L>(alloc, &first_right, &second_right)?;
    compare_pairs::<H>(alloc, &left, &right)
}

/// Whether two lists of one length and one tree hash are the same list, or else two different
/// strings with one hash, the first hashed in the tree hash of the first list and the second in
/// that of the second.
pub fn two_lists<H: TreeHash, L: EntryList>(
    alloc: Global,
    first: &L,
    second: &L,
) -> Result<Finding, Memory>
    requires length { length (L.texts first.now) ≡ length (L.texts second.now) }
    requires root { tree_hash H.hash (L.texts first.now)
        ≡ tree_hash H.hash (L.texts second.now) }
    ensures { IfOk result (Extracts H.hash (L.texts first.now ≡ L.texts second.now)
        (inputs_of H.hash (L.texts first.now)) (inputs_of H.hash (L.texts second.now))) }
{
    if first.len() == 0 {
        return Ok(Finding::Same);
    }
    match compare_lists::<H, L>(alloc, first, second) {
        Ok(_roots) => Ok(Finding::Same),
        Err(Halt::Found(one, other)) => Ok(Finding::Pair(one, other)),
        Err(Halt::Memory) => Err(Memory),
    }
}
