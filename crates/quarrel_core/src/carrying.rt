//! The proof of a subtree, carried from one checkpoint to a later one.

ghost use Rattle.std.specs.Prelude.{◌≡◌, ◌+◌, ◌<◌, ◌≤◌, length, IfOk};
ghost use Rattle.cosigner_steps.specs.Steps.{AreSteps, held_by_first, proof_inputs};
ghost use Rattle.quarrel_core.specs.Carrying.{CarriesTo, IsCarried};

use crate::joined::Joined;
use crate::joining::join;
use crate::strings::law_are_whole;
use cosigner_core::Step;
use cosigner_steps::held_by;
use mtc_io::Memory;
use std::alloc::Global;
use tree_core::TreeHash;
use tree_proofs::{Checkpoint, Hashes};

// What is held after a step, by what is held before it.
fn held_after<H: TreeHash>(steps: &[Step], place: usize, held: &Checkpoint) -> Checkpoint
    requires within { place < length steps.now }
    requires held { held.now ≡ held_by_first H.hash steps.now place }
    ensures { result ≡ held_by_first H.hash steps.now (place + 1) }
{
    match &steps[place] {
        Step::Advance { size, root, .. } => Checkpoint {
            size: *size,
            root: *root,
        },
        Step::Sign { .. } | Step::Child { .. } => *held,
    }
}

// The proof of a subtree of what is held, carried over the step at an index.
fn onward<H: TreeHash>(
    alloc: Global,
    steps: &[Step],
    place: usize,
    start: u64,
    end: u64,
    node: &[u8; 32],
    held: &Checkpoint,
    proof: Hashes,
) -> Result<Joined, Memory>
    requires allowed { AreSteps H.hash steps.now }
    requires within { place < length steps.now }
    requires held { held.now ≡ held_by_first H.hash steps.now place }
    requires carried { IsCarried H.hash start end node.now held.now
        (proof_inputs H.hash steps.now) proof }
    ensures { IfOk result (CarriesTo H.hash start end node.now
        (held_by_first H.hash steps.now (place + 1)) (proof_inputs H.hash steps.now)) }
{
    match &steps[place] {
        Step::Sign { .. } | Step::Child { .. } => Ok(Joined::Proof(proof)),
        Step::Advance {
            size,
            proof: next,
            ..
        } => {
            let (first, second) = (proof.as_slice(), next.as_slice());
            law_are_whole(second);
            join::<H>(alloc, start, end, node, held, *size, first, second)
        }
    }
}

/// The proof of a subtree, carried from what is held before the step `from` to what is held before
/// the step `to`.
pub(crate) fn carried<H: TreeHash>(
    alloc: Global,
    steps: &[Step],
    from: usize,
    to: usize,
    start: u64,
    end: u64,
    node: &[u8; 32],
    proof: &[[u8; 32]],
) -> Result<Joined, Memory>
    requires allowed { AreSteps H.hash steps.now }
    requires order { from ≤ to }
    requires within { to ≤ length steps.now }
    requires carried { IsCarried H.hash start end node.now (held_by_first H.hash steps.now from)
        (proof_inputs H.hash steps.now) proof.now }
    ensures { IfOk result (CarriesTo H.hash start end node.now
        (held_by_first H.hash steps.now to) (proof_inputs H.hash steps.now)) }
{
    let mut held = held_by::<H>(&steps[..from]);
    let mut proof = Hashes::from_vec(Vec::from_slice(alloc, proof)?);
    for place in from..to {
        match onward::<H>(alloc, steps, place, start, end, node, &held, proof)? {
            Joined::Proof(next) => proof = next,
            Joined::Pair(x, y) => return Ok(Joined::Pair(x, y)),
            Joined::Neither => return Ok(Joined::Neither),
        }
        held = held_after::<H>(steps, place, &held);
    }
    Ok(Joined::Proof(proof))
}
