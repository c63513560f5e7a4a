//! Whether the rules of a store are met.

ghost use Rattle.std.specs.Prelude.{◌≡◌, not};
ghost use Rattle.std.specs.List.{position};
ghost use Rattle.mtc_proof.specs.Views.{proof_parts};
ghost use Rattle.policy_core.specs.Counting.{first_unmet, is_in_set, is_met};
ghost use Rattle.policy_core.specs.Judgement.{by_cosigners};

use crate::counting::counted;
use mtc_proof::Proof;
use policy_core::{Accepted, By, Refusal, Rule, Store};

// The set has the cosigner at this index.
fn is_in_set(set: u64, place: u32) -> bool
    ensures { result ≡ is_in_set set place }
{
    place < 64 && (set >> place) & 1 == 1
}

// At least as many of the rule's cosigners are in the set as it asks for.
fn is_met(set: u64, rule: &Rule) -> bool
    ensures { result ≡ is_met set rule.now }
{
    let signed = rule
        .cosigners
        .as_slice()
        .iter()
        .filter(|place| is_in_set(set, **place))
        .count();
    rule.count as usize <= signed
}

// The index of the first rule that isn't met.
fn first_of(set: u64, rules: &[Rule]) -> Option<usize>
    ensures { result ≡ position (λ r. not (is_met set r)) rules.now }
{
    rules.iter().position(|rule| !is_met(set, rule))
}

// The first rule that isn't met, counted from 1. It is 0 if there is no rule.
fn first_unmet(set: u64, rules: &[Rule]) -> Option<u64>
    ensures { result ≡ first_unmet set rules.now }
{
    if rules.is_empty() {
        return Some(0);
    }
    match first_of(set, rules) {
        Some(place) => Some(place as u64 + 1),
        None => None,
    }
}

/// The answer where no hash is trusted for the interval: the cosigners decide by the rules.
#[tactic(auto, unfolding(policy_core::specs::Judgement::by_cosigners))]
pub fn decide_by_rules(
    store: &Store,
    index: u64,
    proof: &Proof,
    hash: &[u8; 32],
) -> Result<Accepted, Refusal>
    ensures { result ≡ by_cosigners store.now index (proof_parts proof.now) hash.now }
{
    let set = counted(store, proof, hash);
    match first_unmet(set, store.rules.as_slice()) {
        Some(rule) => Err(Refusal::TooFewCosigners(rule)),
        None => Ok(Accepted {
            index,
            start: proof.start,
            end: proof.end,
            hash: *hash,
            by: By::Cosigners(set),
        }),
    }
}
