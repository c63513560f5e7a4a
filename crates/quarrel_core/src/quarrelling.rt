//! Two signatures of one cosigner that are in conflict, and two strings with one hash.

ghost use Rattle.std.specs.Prelude.{◌≡◌, ◌≢◌, ◌<◌, ◌≤◌, length, slice_get, IfOk, Some};
ghost use Rattle.cosigner_steps.specs.Steps.{AreSteps, Shows, held_by_first, proof_inputs};
ghost use Rattle.quarrel_core.specs.Carrying.{IsCarried};
ghost use Rattle.quarrel_core.specs.Conflicts.{conflict_in, key_in};
ghost use Rattle.quarrel_core.specs.Quarrels.{IsQuarrel};

use crate::answer::Quarrel;
use crate::carrying::carried;
use crate::conflicting::conflict;
use crate::contrasting::two_proofs;
use crate::joined::Joined;
use crate::strings::law_are_whole;
use collide::Finding;
use cosigner_core::{Export, Step};
use cosigner_steps::held_by;
use mtc_io::Memory;
use std::alloc::Global;
use tree_core::TreeHash;

// The number of the one-time key of the Sign at an index.
fn key_at(steps: &[Step], place: usize) -> u32
    requires { place < length steps.now }
    ensures { result ≡ key_in (slice_get steps.now place) }
{
    match &steps[place] {
        Step::Advance { .. } | Step::Child { .. } => 0,
        Step::Sign { index, .. } => *index,
    }
}

// Two strings with one hash, by proofs of different hashes of one subtree: of `node` before the
// step `from`, and of `other` before the step `to`.
fn pair_of<H: TreeHash>(
    alloc: Global,
    steps: &[Step],
    from: usize,
    to: usize,
    start: u64,
    end: u64,
    node: &[u8; 32],
    proof: &[[u8; 32]],
    other: &[u8; 32],
    shown: &[[u8; 32]],
) -> Result<Finding, Memory>
    requires allowed { AreSteps H.hash steps.now }
    requires order { from ≤ to }
    requires within { to ≤ length steps.now }
    requires first { IsCarried H.hash start end node.now (held_by_first H.hash steps.now from)
        (proof_inputs H.hash steps.now) proof.now }
    requires second { IsCarried H.hash start end other.now (held_by_first H.hash steps.now to)
        (proof_inputs H.hash steps.now) shown.now }
    requires differ { node.now ≢ other.now }
    ensures { IfOk result (Shows H.hash (proof_inputs H.hash steps.now)
        (proof_inputs H.hash steps.now)) }
{
    match carried::<H>(alloc, steps, from, to, start, end, node, proof)? {
        Joined::Proof(proof) => {
            let held = held_by::<H>(&steps[..to]);
            two_proofs::<H>(
                alloc,
                start,
                end,
                &held,
                node,
                other,
                proof.as_slice(),
                shown,
            )
        }
        Joined::Pair(x, y) => Ok(Finding::Pair(x, y)),
        Joined::Neither => unreachable!(),
    }
}

// The same by two Signs in conflict.
fn pair_between<H: TreeHash>(
    alloc: Global,
    steps: &[Step],
    one: usize,
    other: usize,
) -> Result<Finding, Memory>
    requires allowed { AreSteps H.hash steps.now }
    requires conflict { conflict_in steps.now ≡ Some (one, other) }
    requires first { one < length steps.now }
    requires second { other < length steps.now }
    ensures { IfOk result (Shows H.hash (proof_inputs H.hash steps.now)
        (proof_inputs H.hash steps.now)) }
{
    let Step::Sign {
        start,
        end,
        hash,
        proof,
        ..
    } = &steps[one]
    else {
        unreachable!()
    };
    let Step::Sign {
        hash: node,
        proof: shown,
        ..
    } = &steps[other]
    else {
        unreachable!()
    };
    let (proof, shown) = (proof.as_slice(), shown.as_slice());
    law_are_whole(proof);
    law_are_whole(shown);
    pair_of::<H>(
        alloc, steps, one, other, *start, *end, hash, proof, node, shown,
    )
}

/// Whether the signatures in an export agree, or two of them are of one interval with different
/// hashes. Then the proofs of its steps show two different strings with one hash.
///
/// The second signature is the first that is in conflict with an earlier one, and the first is the
/// earliest of these. They are named by the numbers of their one-time keys. The proof of the first
/// is carried to the checkpoint of the second. The time grows with the bytes of the export, but for
/// one look-up for each signature.
pub fn quarrel<H: TreeHash>(alloc: Global, kept: &Export) -> Result<Quarrel, Memory>
    requires { AreSteps H.hash kept.now.steps }
    ensures { IfOk result (IsQuarrel H.hash kept.now.steps) }
{
    let steps = kept.steps.as_slice();
    let Some(indices) = conflict(alloc, steps)? else {
        return Ok(Quarrel::Agree);
    };
    let (first, second) = (key_at(steps, indices.0), key_at(steps, indices.1));
    match pair_between::<H>(alloc, steps, indices.0, indices.1)? {
        Finding::Same => unreachable!(),
        Finding::Pair(x, y) => Ok(Quarrel::Pair {
            first,
            second,
            x,
            y,
        }),
    }
}
