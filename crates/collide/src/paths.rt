//! A list and an inclusion path with one hash.

ghost use Rattle.std.specs.Prelude.{◌≡◌, ◌-◌, ◌<◌, ◌≤◌, [], length, slice_index_or, IfOk};
ghost use Rattle.std.specs.Prelude.{IsSome, Some, Ok};
ghost use Rattle.byte_formats.specs.Types.{Hash};
ghost use Rattle.tree_core.specs.Evaluation.{eval_of, evaluation};
ghost use Rattle.tree_core.specs.Path.{part_of};
ghost use Rattle.tree_core.specs.Tree.{leaf_hash, tree_hash};
ghost use Rattle.collide.specs.Comparison.{Compares};
ghost use Rattle.collide.specs.Extraction.{Extracts};
ghost use Rattle.collide.specs.Inputs.{eval_inputs_of, inputs_of};

use crate::Finding;
use crate::comparing::{Halt, Roots, compare_leaves, compare_pairs};
use mtc_io::Memory;
use std::alloc::Global;
use tree_core::TreeHash;
use tree_proofs::{EntryList, halves, list_hash, part_between};

// The tree hash of a list, and the one that a path gives for an entry at this index of it.
fn compare_path<H: TreeHash, L: EntryList>(
    alloc: Global,
    items: &L,
    index: usize,
    entry: &[u8],
    path: &[[u8; 32]],
) -> Result<Roots, Halt>
    requires inside { index < length (L.texts items.now) }
    requires gives { IsSome (eval_of H.hash index (length (L.texts items.now))
        (leaf_hash H.hash entry.now) path.now) }
    ensures { (value : Hash)
        → eval_of H.hash index (length (L.texts items.now)) (leaf_hash H.hash entry.now) path.now
        ≡ Some value
        → Compares H.hash (slice_index_or (L.texts items.now) index [] ≡ entry.now)
        (tree_hash H.hash (L.texts items.now)) value
        (inputs_of H.hash (L.texts items.now))
        (eval_inputs_of H.hash index (length (L.texts items.now)) entry.now path.now) result }
{
    let Some((sibling, rest)) = path.split_last() else {
        return compare_leaves::<H>(alloc, items.entry(index), entry);
    };
    let (left, right) = halves(items);
    let middle = left.len();
    if index < middle {
        let beside = Roots {
            first: list_hash::<H, L>(&right),
            second: *sibling,
        };
        let below = compare_path::<H, L>(alloc, &left, index, entry, rest)?;
        return compare_pairs::<H>(alloc, &below, &beside);
    }
    let beside = Roots {
        first: list_hash::<H, L>(&left),
        second: *sibling,
    };
    let below = compare_path::<H, L>(alloc, &right, index - middle, entry, rest)?;
    compare_pairs::<H>(alloc, &beside, &below)
}

// Whether the item at this index of a list is the entry, where the entry's path gives the list's
// tree hash, or else two strings.
fn in_part<H: TreeHash, L: EntryList>(
    alloc: Global,
    items: &L,
    index: usize,
    entry: &[u8],
    path: &[[u8; 32]],
) -> Result<Finding, Memory>
    requires inside { index < length (L.texts items.now) }
    requires gives { eval_of H.hash index (length (L.texts items.now)) (leaf_hash H.hash entry.now)
        path.now ≡ Some (tree_hash H.hash (L.texts items.now)) }
    ensures { IfOk result (Extracts H.hash
        (slice_index_or (L.texts items.now) index [] ≡ entry.now)
        (inputs_of H.hash (L.texts items.now))
        (eval_inputs_of H.hash index (length (L.texts items.now)) entry.now path.now)) }
{
    if items.entry(index) == entry {
        return Ok(Finding::Same);
    }
    match compare_path::<H, L>(alloc, items, index, entry, path) {
        Ok(_roots) => Ok(Finding::Same),
        Err(Halt::Found(one, other)) => Ok(Finding::Pair(one, other)),
        Err(Halt::Memory) => Err(Memory),
    }
}

/// Whether the item at this index of a list is the entry, where the entry's inclusion path in the
/// subtree `[start, end)` gives the tree hash of the list's own items there, or else two different
/// strings with one hash, the first hashed in the tree hash of these items and the second in the
/// evaluation of the path. The path's first hash is the sibling of the leaf.
///
/// Each item is hashed at most once.
pub fn in_list<H: TreeHash, L: EntryList>(
    alloc: Global,
    items: &L,
    start: u64,
    end: u64,
    index: u64,
    entry: &[u8],
    path: &[[u8; 32]],
) -> Result<Finding, Memory>
    requires within { end ≤ length (L.texts items.now) }
    requires evaluates { evaluation H.hash (leaf_hash H.hash entry.now) index start end path.now
        ≡ Ok (tree_hash H.hash (part_of (L.texts items.now) start end)) }
    ensures { IfOk result (Extracts H.hash
        (slice_index_or (L.texts items.now) index [] ≡ entry.now)
        (inputs_of H.hash (part_of (L.texts items.now) start end))
        (eval_inputs_of H.hash (index - start) (end - start) entry.now path.now)) }
{
    let part = part_between(items, start, end);
    in_part::<H, L>(alloc, &part, (index - start) as usize, entry, path)
}
