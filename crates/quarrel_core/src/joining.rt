//! Two proofs joined, by the definition's recursion from the root down.

ghost use Rattle.std.specs.Prelude.{◌≡◌, ◌<◌, ◌≤◌, reverse, IfOk};
ghost use Rattle.quarrel_core.specs.Joining.{joined_right, joined_left};
ghost use Rattle.quarrel_core.specs.Joining.{joined_of, joined_turned, joined_with};
ghost use Rattle.quarrel_core.specs.Laws.{JoinsIfBothCheck};
ghost use Rattle.quarrel_core.specs.OpenedParts.{IsJoinedAfter, IsJoinedBefore, IsJoinedBeside};
ghost use Rattle.quarrel_core.specs.OpenedParts.{IsJoining, joined_proofs, proofs_above};

use crate::joined::Joined;
use crate::opened_parts::{BothOpened, above};
use crate::part::{Part, after};
use crate::strings::{are_same, law_are_whole, pair_string};
use mtc_io::Memory;
use std::alloc::Global;
use tree_core::TreeHash;
use tree_proofs::{Checkpoint, Hashes, opened, split};

// The proof of an interval of `old` entries, and the proof of these entries in `new` ones.
#[derive(Clone, Copy)]
struct Proofs<'a> {
    part: Part,
    old: u64,
    new: u64,
    // Whether the hash of the old entries is known.
    still: bool,
    node: &'a [u8; 32],
    prefix: &'a [u8; 32],
    first: &'a [[u8; 32]],
    second: &'a [[u8; 32]],
}

// A proof of its own.
fn copy_of(alloc: Global, proof: &[[u8; 32]]) -> Result<Joined, Memory>
    ensures { IfOk result (λ joined. joined ≡ Joined.Proof proof.now) }
{
    Ok(Joined::Proof(Hashes::from_vec(Vec::from_slice(alloc, proof)?)))
}

// The same with one hash more, next to the root.
fn with_hash(joined: Joined, hash: &[u8; 32]) -> Result<Joined, Memory>
    ensures { IfOk result (λ more. joined_turned more
        ≡ joined_with hash.now (joined_turned joined)) }
{
    match joined {
        Joined::Proof(proof) => {
            let mut hashes = proof.into_vec();
            hashes.push(*hash)?;
            Ok(Joined::Proof(Hashes::from_vec(hashes)))
        }
        Joined::Pair(x, y) => Ok(Joined::Pair(x, y)),
        Joined::Neither => Ok(Joined::Neither),
    }
}

// The subtree lies left of the split. These are what the proofs give of both parts of the list.
fn left_of(
    alloc: Global,
    own: &[u8; 32],
    sibling: &[u8; 32],
    proof: &[[u8; 32]],
    given: BothOpened,
) -> Result<Joined, Memory>
    ensures { IfOk result (λ joined. joined_turned joined
        ≡ joined_left own.now sibling.now (reverse proof.now) given.first given.second) }
{
    let Some(part) = given.first else {
        return Ok(Joined::Neither);
    };
    let Some(beside) = given.second else {
        return Ok(Joined::Neither);
    };
    if are_same(&part.root, own, sibling, &beside.subtree) {
        return with_hash(copy_of(alloc, proof)?, &beside.root);
    }
    let x = pair_string(alloc, &part.root, own)?;
    let y = pair_string(alloc, sibling, &beside.subtree)?;
    Ok(Joined::Pair(x, y))
}

// The subtree has entries after the split. These are what both proofs give there, and what they
// give together.
fn right_of(
    alloc: Global,
    own: &[u8; 32],
    sibling: &[u8; 32],
    rest: Joined,
    given: BothOpened,
) -> Result<Joined, Memory>
    ensures { IfOk result (λ joined. joined_turned joined
        ≡ joined_right own.now sibling.now (joined_turned rest) given.first given.second) }
{
    let Some(part) = given.first else {
        return Ok(Joined::Neither);
    };
    let Some(beside) = given.second else {
        return Ok(Joined::Neither);
    };
    if are_same(own, &part.root, sibling, &beside.subtree) {
        return with_hash(rest, sibling);
    }
    let x = pair_string(alloc, own, &part.root)?;
    let y = pair_string(alloc, sibling, &beside.subtree)?;
    Ok(Joined::Pair(x, y))
}

// What both proofs give of their lists, which are split at `middle`, by what they give of the parts
// that their intervals end in.
fn both_above<H: TreeHash>(
    middle: u64,
    proofs: Proofs<'_>,
    own: &[u8; 32],
    sibling: &[u8; 32],
    given: BothOpened,
) -> BothOpened
    ensures { result ≡ proofs_above H.hash middle proofs.entry own.now sibling.now given }
{
    let part = proofs.part;
    BothOpened {
        first: above::<H>(middle, part.start, part.end, own, given.first),
        second: above::<H>(middle, 0, proofs.old, sibling, given.second),
    }
}

// The old entries lie left of the split. This is what the proofs give there.
fn joined_before<H: TreeHash>(
    middle: u64,
    old: u64,
    sibling: &[u8; 32],
    below: (Joined, BothOpened),
) -> Result<(Joined, BothOpened), Memory>
    ensures { IfOk result (λ both. IsJoinedBefore H.hash middle old sibling.now below both) }
{
    let (joined, given) = below;
    let given = BothOpened {
        first: given.first,
        second: above::<H>(middle, 0, old, sibling, given.second),
    };
    Ok((with_hash(joined, sibling)?, given))
}

// The subtree lies left of the split, and old entries after it. These are the proofs without their
// last hashes.
fn joined_beside<H: TreeHash>(
    alloc: Global,
    middle: u64,
    proofs: Proofs<'_>,
    own: &[u8; 32],
    less: &[[u8; 32]],
    sibling: &[u8; 32],
    rest: &[[u8; 32]],
) -> Result<(Joined, BothOpened), Memory>
    requires order { proofs.part.start < proofs.part.end }
    requires left { proofs.part.end ≤ middle }
    requires over { middle < proofs.old }
    requires grows { proofs.old ≤ proofs.new }
    ensures { IfOk result (λ both. IsJoinedBeside H.hash middle proofs.entry own.now less.now
        sibling.now rest.now both) }
{
    let Proofs { part, old, new, .. } = proofs;
    let (n, m) = (old - middle, new - middle);
    let given = BothOpened {
        first: opened::<H>(part.start, part.end, middle, part.known, proofs.node, less),
        second: opened::<H>(0, n, m, false, proofs.prefix, rest),
    };
    let joined = left_of(alloc, own, sibling, less, given)?;
    Ok((joined, both_above::<H>(middle, proofs, own, sibling, given)))
}

// The subtree has entries after the split. This is what the proofs give there.
fn joined_after<H: TreeHash>(
    alloc: Global,
    middle: u64,
    proofs: Proofs<'_>,
    own: &[u8; 32],
    sibling: &[u8; 32],
    below: (Joined, BothOpened),
) -> Result<(Joined, BothOpened), Memory>
    ensures { IfOk result (λ both. IsJoinedAfter H.hash middle proofs.entry own.now sibling.now
        below both) }
{
    let (rest, given) = below;
    let joined = right_of(alloc, own, sibling, rest, given)?;
    Ok((joined, both_above::<H>(middle, proofs, own, sibling, given)))
}

// What proofs give that aren't followed further down, and what they give together.
fn ended<H: TreeHash>(joined: Joined, proofs: Proofs<'_>) -> (Joined, BothOpened)
    requires order { proofs.part.start < proofs.part.end }
    requires within { proofs.part.end ≤ proofs.old }
    requires grows { proofs.old ≤ proofs.new }
    requires joined { joined_turned joined ≡ joined_proofs H.hash proofs }
    ensures { IsJoining H.hash proofs.entry result.0 result.1 }
{
    let Proofs {
        part,
        old,
        new,
        still,
        node,
        prefix,
        first,
        second,
    } = proofs;
    let given = BothOpened {
        first: opened::<H>(part.start, part.end, old, part.known, node, first),
        second: opened::<H>(0, old, new, still, prefix, second),
    };
    (joined, given)
}

// What proofs give together, and what each of them gives. Each hash of an opening is computed once.
fn join_in<H: TreeHash>(alloc: Global, proofs: Proofs<'_>) -> Result<(Joined, BothOpened), Memory>
    requires order { proofs.part.start < proofs.part.end }
    requires within { proofs.part.end ≤ proofs.old }
    requires grows { proofs.old ≤ proofs.new }
    ensures { IfOk result (λ both. IsJoining H.hash proofs.entry both.0 both.1) }
{
    let Proofs { part, old, new, .. } = proofs;
    if old == new {
        return Ok(ended::<H>(copy_of(alloc, proofs.first)?, proofs));
    }
    let Some((sibling, rest)) = proofs.second.split_last() else {
        return Ok(ended::<H>(Joined::Neither, proofs));
    };
    let k = split(new);
    if old <= k {
        let left = Proofs {
            new: k,
            second: rest,
            ..proofs
        };
        return joined_before::<H>(k, old, sibling, join_in::<H>(alloc, left)?);
    }
    if part.start == 0 && part.end == old {
        return Ok(ended::<H>(copy_of(alloc, proofs.second)?, proofs));
    }
    let Some((own, less)) = proofs.first.split_last() else {
        return Ok(ended::<H>(Joined::Neither, proofs));
    };
    if part.end <= k {
        return joined_beside::<H>(alloc, k, proofs, own, less, sibling, rest);
    }
    let lower = Proofs {
        part: after(k, part),
        old: old - k,
        new: new - k,
        still: false,
        first: less,
        second: rest,
        ..proofs
    };
    joined_after::<H>(alloc, k, proofs, own, sibling, join_in::<H>(alloc, lower)?)
}

/// The proof of a subtree `[start, end)` in the checkpoint `old`, whose hash is `node`, and the
/// proof of these entries in a list of `new` entries, joined. The lowest hash of a proof comes
/// first.
///
/// If both proofs check, the answer is the proof of the subtree in the longer list, or two strings
/// with one hash. It is `Neither` only if a proof has another length than the proof that is made of
/// such a subtree. The time is that of opening both proofs once.
pub fn join<H: TreeHash>(
    alloc: Global,
    start: u64,
    end: u64,
    node: &[u8; 32],
    old: &Checkpoint,
    new: u64,
    first: &[[u8; 32]],
    second: &[[u8; 32]],
) -> Result<Joined, Memory>
    requires order { start < end }
    requires within { end ≤ old.now.size }
    requires grows { old.now.size ≤ new }
    ensures exact { IfOk result (λ joined. joined ≡ joined_of H.hash start end old.now.size new
        node.now old.now.root first.now second.now) }
    ensures joins { IfOk result (JoinsIfBothCheck H.hash start end old.now new node.now
        first.now second.now) }
{
    law_are_whole(first);
    law_are_whole(second);
    let part = Part {
        start,
        end,
        known: true,
    };
    let proofs = Proofs {
        part,
        old: old.size,
        new,
        still: true,
        node,
        prefix: &old.root,
        first,
        second,
    };
    let (joined, _) = join_in::<H>(alloc, proofs)?;
    Ok(joined)
}
