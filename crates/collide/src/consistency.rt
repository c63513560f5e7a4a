//! A list and a consistency proof with one root.

ghost use Rattle.std.specs.Prelude.{◌≡◌, ◌<◌, ◌≤◌, true, length, IfOk, IsSome, Some};
ghost use Rattle.tree_core.specs.Path.{part_of};
ghost use Rattle.tree_core.specs.Tree.{tree_hash};
ghost use Rattle.tree_proofs.specs.Consistency.{Checks};
ghost use Rattle.tree_proofs.specs.Open.{open_of};
ghost use Rattle.tree_proofs.specs.declared.outcome.Opened.{Opened};
ghost use Rattle.collide.specs.Comparison.{AreRoots, Compares};
ghost use Rattle.collide.specs.Extraction.{Extracts};
ghost use Rattle.collide.specs.After.{IsFollowing};
ghost use Rattle.collide.specs.Inputs.{inputs_of, open_inputs_of};

use crate::Finding;
use crate::comparing::{Halt, Roots, compare_pairs};
use mtc_io::Memory;
use std::alloc::Global;
use tree_core::TreeHash;
use tree_proofs::{EntryList, halves, list_hash, opened, part_between};

// What an interval that ends after a split is there, counted from the split, and whether its hash
// is still known.
fn following(middle: u64, start: u64, end: u64, known: bool) -> (u64, u64, bool)
    requires { middle < end }
    ensures { IsFollowing middle start end known result.0 result.1 result.2 }
{
    if middle <= start {
        (start - middle, end - middle, known)
    } else {
        (0, end - middle, false)
    }
}

// The tree hash of a list, and the root that the consistency proof of the whole list gives.
fn compare_whole<H: TreeHash, L: EntryList>(
    items: &L,
    start: u64,
    end: u64,
    known: bool,
    node: &[u8; 32],
    proof: &[[u8; 32]],
) -> Roots
    requires some { 0 < length (L.texts items.now) }
    requires first { start ≡ 0 }
    requires last { end ≡ length (L.texts items.now) }
    requires gives { IsSome
        (open_of H.hash start end (length (L.texts items.now)) known node.now proof.now) }
    ensures { (given : Opened)
        → open_of H.hash start end (length (L.texts items.now)) known node.now proof.now
        ≡ Some given
        → AreRoots
        (tree_hash H.hash (part_of (L.texts items.now) start end) ≡ given.subtree)
        (tree_hash H.hash (L.texts items.now)) given.root result }
{
    let Some(given) = opened::<H>(start, end, items.len() as u64, known, node, proof) else {
        unreachable!()
    };
    let root = given.root;
    Roots {
        first: list_hash::<H, L>(items),
        second: root,
    }
}

// The tree hash of a list, and the root that the consistency proof of its part `[start, end)`
// gives, whose hash is `node` where it is `known`.
fn compare_proof<H: TreeHash, L: EntryList>(
    alloc: Global,
    items: &L,
    start: u64,
    end: u64,
    known: bool,
    node: &[u8; 32],
    proof: &[[u8; 32]],
) -> Result<Roots, Halt>
    requires order { start < end }
    requires within { end ≤ length (L.texts items.now) }
    requires gives { IsSome
        (open_of H.hash start end (length (L.texts items.now)) known node.now proof.now) }
    ensures { (given : Opened)
        → open_of H.hash start end (length (L.texts items.now)) known node.now proof.now
        ≡ Some given
        → Compares H.hash
        (tree_hash H.hash (part_of (L.texts items.now) start end) ≡ given.subtree)
        (tree_hash H.hash (L.texts items.now)) given.root
        (inputs_of H.hash (L.texts items.now))
        (open_inputs_of H.hash start end (length (L.texts items.now)) known node.now proof.now)
        result }
{
    let count = items.len() as u64;
    if start == 0 && end == count {
        return Ok(compare_whole::<H, L>(items, start, end, known, node, proof));
    }
    let Some((sibling, rest)) = proof.split_last() else {
        unreachable!()
    };
    let (left, right) = halves(items);
    let middle = left.len() as u64;
    if end <= middle {
        let beside = Roots {
            first: list_hash::<H, L>(&right),
            second: *sibling,
        };
        let below = compare_proof::<H, L>(alloc, &left, start, end, known, node, rest)?;
        return compare_pairs::<H>(alloc, &below, &beside);
    }
    let beside = Roots {
        first: list_hash::<H, L>(&left),
        second: *sibling,
    };
    let (from, to, still) = following(middle, start, end, known);
    let below = compare_proof::<H, L>(alloc, &right, from, to, still, node, rest)?;
    compare_pairs::<H>(alloc, &beside, &below)
}

/// Whether the list's own items in the subtree `[start, end)` have this tree hash, where the
/// subtree's consistency proof checks for it and for the list's length and tree hash, or else two
/// different strings with one hash, the first hashed in the tree hash of the list and the second in
/// the opening of the proof. The proof's lowest hash comes first.
///
/// Each item is hashed at most twice.
pub fn in_consistency<H: TreeHash, L: EntryList>(
    alloc: Global,
    items: &L,
    start: u64,
    end: u64,
    node: &[u8; 32],
    proof: &[[u8; 32]],
) -> Result<Finding, Memory>
    requires { Checks H.hash start end (length (L.texts items.now)) node.now
        (tree_hash H.hash (L.texts items.now)) proof.now }
    ensures { IfOk result (Extracts H.hash
        (tree_hash H.hash (part_of (L.texts items.now) start end) ≡ node.now)
        (inputs_of H.hash (L.texts items.now))
        (open_inputs_of H.hash start end (length (L.texts items.now)) true node.now proof.now)) }
{
    if list_hash::<H, L>(&part_between(items, start, end)) == *node {
        return Ok(Finding::Same);
    }
    match compare_proof::<H, L>(alloc, items, start, end, true, node, proof) {
        Ok(_roots) => Ok(Finding::Same),
        Err(Halt::Found(one, other)) => Ok(Finding::Pair(one, other)),
        Err(Halt::Memory) => Err(Memory),
    }
}
