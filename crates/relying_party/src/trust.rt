//! Whether the hash of an interval is trusted.

ghost use Rattle.std.specs.Prelude.{◌≡◌, Some, None, MatchOption};
ghost use Rattle.std.specs.List.{find};
ghost use Rattle.mtc_proof.specs.Views.{proof_parts};
ghost use Rattle.policy_core.specs.Judgement.{is_of, decided};

use crate::rules::decide_by_rules;
use mtc_proof::Proof;
use policy_core::{Accepted, By, Refusal, Store, Trusted};

// The trusted subtree with this interval.
fn trusted(start: u64, end: u64, subtrees: &[Trusted]) -> Option<&Trusted>
    ensures { MatchOption result (find (is_of start end) subtrees.now ≡ None)
        (λ t. find (is_of start end) subtrees.now ≡ Some t.now) }
{
    for subtree in subtrees {
        if subtree.start == start && subtree.end == end {
            return Some(subtree);
        }
    }
    None
}

/// The answer where the proof of the entry at this index gives its interval this hash. A trusted
/// interval decides alone; else the cosigners do.
#[tactic(auto, unfolding(policy_core::specs::Judgement::decided))]
pub fn decide(
    store: &Store,
    index: u64,
    proof: &Proof,
    hash: &[u8; 32],
) -> Result<Accepted, Refusal>
    ensures { result ≡ decided store.now index (proof_parts proof.now) hash.now }
{
    match trusted(proof.start, proof.end, store.subtrees.as_slice()) {
        Some(subtree) if subtree.hash == *hash => Ok(Accepted {
            index,
            start: proof.start,
            end: proof.end,
            hash: *hash,
            by: By::Landmark,
        }),
        Some(_) => Err(Refusal::LandmarkDiffers),
        None => decide_by_rules(store, index, proof, hash),
    }
}
