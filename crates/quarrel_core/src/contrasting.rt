//! Two proofs of one subtree, by the definition's recursion from the root down.

ghost use Rattle.std.specs.Prelude.{◌≡◌, ◌<◌, ◌≤◌, true, reverse, IfOk};
ghost use Rattle.tree_proofs.specs.Consistency.{Checks};
ghost use Rattle.collide.specs.declared.finding.Finding.TheVariants.{Same};
ghost use Rattle.collide.specs.Extraction.{Extracts};
ghost use Rattle.collide.specs.Inputs.{open_inputs_of};
ghost use Rattle.quarrel_core.specs.Contrasting.{contrast_after, contrast_from_root};
ghost use Rattle.quarrel_core.specs.Contrasting.{contrast_left};
ghost use Rattle.quarrel_core.specs.OpenedParts.{IsContrast, opened_above};

use crate::opened_parts::{BothOpened, above};
use crate::part::{Part, after};
use crate::strings::{are_same, law_are_whole, pair_string};
use collide::Finding;
use mtc_io::Memory;
use std::alloc::Global;
use tree_core::TreeHash;
use tree_proofs::{Checkpoint, opened, split};

// What is found where the interval lies left of the split, by what both proofs give of the left
// part and by what is found there.
fn left_of(
    alloc: Global,
    own: &[u8; 32],
    sibling: &[u8; 32],
    rest: Finding,
    given: BothOpened,
) -> Result<Finding, Memory>
    ensures { IfOk result (λ finding. finding
        ≡ contrast_left own.now sibling.now rest given.first given.second) }
{
    let Some(one) = given.first else {
        return Ok(Finding::Same);
    };
    let Some(other) = given.second else {
        return Ok(Finding::Same);
    };
    if are_same(&one.root, own, &other.root, sibling) {
        return Ok(rest);
    }
    let x = pair_string(alloc, &one.root, own)?;
    let y = pair_string(alloc, &other.root, sibling)?;
    Ok(Finding::Pair(x, y))
}

// The same where the interval has entries after the split.
fn right_of(
    alloc: Global,
    own: &[u8; 32],
    sibling: &[u8; 32],
    rest: Finding,
    given: BothOpened,
) -> Result<Finding, Memory>
    ensures { IfOk result (λ finding. finding
        ≡ contrast_after own.now sibling.now rest given.first given.second) }
{
    let Some(one) = given.first else {
        return Ok(Finding::Same);
    };
    let Some(other) = given.second else {
        return Ok(Finding::Same);
    };
    if are_same(own, &one.root, sibling, &other.root) {
        return Ok(rest);
    }
    let x = pair_string(alloc, own, &one.root)?;
    let y = pair_string(alloc, sibling, &other.root)?;
    Ok(Finding::Pair(x, y))
}

// What both proofs of an interval give of a list that is split at `middle`, by what they give of
// the part that the interval ends in.
fn both_above<H: TreeHash>(
    middle: u64,
    part: Part,
    own: &[u8; 32],
    sibling: &[u8; 32],
    given: BothOpened,
) -> BothOpened
    ensures first { result.first
        ≡ opened_above H.hash middle part.start part.end own.now given.first }
    ensures second { result.second
        ≡ opened_above H.hash middle part.start part.end sibling.now given.second }
{
    BothOpened {
        first: above::<H>(middle, part.start, part.end, own, given.first),
        second: above::<H>(middle, part.start, part.end, sibling, given.second),
    }
}

// What proofs give that show no two strings.
fn alike<H: TreeHash>(
    part: Part,
    size: u64,
    node: &[u8; 32],
    other: &[u8; 32],
    first: &[[u8; 32]],
    second: &[[u8; 32]],
) -> (Finding, BothOpened)
    requires order { part.start < part.end }
    requires within { part.end ≤ size }
    requires same { Same ≡ contrast_from_root H.hash part.start part.end size part.known node.now
        other.now (reverse first.now) (reverse second.now) }
    ensures { IsContrast H.hash part.start part.end size part.known node.now other.now first.now
        second.now result.0 result.1 }
{
    let given = BothOpened {
        first: opened::<H>(part.start, part.end, size, part.known, node, first),
        second: opened::<H>(part.start, part.end, size, part.known, other, second),
    };
    (Finding::Same, given)
}

// Two proofs of an interval in `size` entries: what is found in them, and what each of them gives.
// Each hash of an opening is computed once.
fn contrast_in<H: TreeHash>(
    alloc: Global,
    part: Part,
    size: u64,
    node: &[u8; 32],
    other: &[u8; 32],
    first: &[[u8; 32]],
    second: &[[u8; 32]],
) -> Result<(Finding, BothOpened), Memory>
    requires order { part.start < part.end }
    requires within { part.end ≤ size }
    ensures { IfOk result (λ both. IsContrast H.hash part.start part.end size part.known node.now
        other.now first.now second.now both.0 both.1) }
{
    let Some((own, less)) = first.split_last() else {
        return Ok(alike::<H>(part, size, node, other, first, second));
    };
    let Some((sibling, rest)) = second.split_last() else {
        return Ok(alike::<H>(part, size, node, other, first, second));
    };
    if part.start == 0 && part.end == size {
        return Ok(alike::<H>(part, size, node, other, first, second));
    }
    let k = split(size);
    if part.end <= k {
        let (below, given) = contrast_in::<H>(alloc, part, k, node, other, less, rest)?;
        let finding = left_of(alloc, own, sibling, below, given)?;
        return Ok((finding, both_above::<H>(k, part, own, sibling, given)));
    }
    let there = after(k, part);
    let (below, given) = contrast_in::<H>(alloc, there, size - k, node, other, less, rest)?;
    let finding = right_of(alloc, own, sibling, below, given)?;
    Ok((finding, both_above::<H>(k, part, own, sibling, given)))
}

/// Whether two hashes of the subtree `[start, end)` of a checkpoint are the same, where the first
/// proof checks for one of them and the second for the other. Or else two different strings with
/// one hash, the first hashed in the opening of the first proof and the second in that of the
/// second. The time is that of opening both proofs once.
pub fn two_proofs<H: TreeHash>(
    alloc: Global,
    start: u64,
    end: u64,
    held: &Checkpoint,
    node: &[u8; 32],
    other: &[u8; 32],
    first: &[[u8; 32]],
    second: &[[u8; 32]],
) -> Result<Finding, Memory>
    requires first { Checks H.hash start end held.now.size node.now held.now.root first.now }
    requires second { Checks H.hash start end held.now.size other.now held.now.root second.now }
    ensures { IfOk result (Extracts H.hash (node.now ≡ other.now)
        (open_inputs_of H.hash start end held.now.size true node.now first.now)
        (open_inputs_of H.hash start end held.now.size true other.now second.now)) }
{
    if node == other {
        return Ok(Finding::Same);
    }
    law_are_whole(first);
    law_are_whole(second);
    let part = Part {
        start,
        end,
        known: true,
    };
    let (finding, _) = contrast_in::<H>(alloc, part, held.size, node, other, first, second)?;
    Ok(finding)
}
