//! What a store has to be as a whole.

ghost use Rattle.std.specs.Prelude.{◌≡◌, ◌≢◌, length, Ok, Err, IfOk, IfErr};
ghost use Rattle.byte_formats.specs.Readings.{Answers};
ghost use Rattle.std.specs.List.{AllByRecursion, list_any};
ghost use Rattle.policy_core.specs.declared.error.StoreError.{StoreError};
ghost use Rattle.policy_core.specs.Files.{are_inhabited, are_subtrees, checked_store};
ghost use Rattle.policy_core.specs.Stores.{has_repeat, has_same_id, has_same_interval, IsRule};
ghost use Rattle.policy_core.specs.Stores.{IsValid};
ghost use Rattle.cert_names.specs.LogNames.{name_with};
ghost use Rattle.tls_wire.specs.Anchors.{text_of};

use crate::cosigners::Known;
use crate::error::StoreError;
use crate::lists::Trusted;
use crate::store::Store;
use mtc_io::Memory;
use std::alloc::Global;
use std::collections::BTreeSet;
use tree_core::{Span, subtree_ok};

// Two of these have one interval. Each interval is compared with those before it.
fn repeats(alloc: Global, subtrees: &[Trusted]) -> Result<bool, Memory>
    ensures { IfOk result (λ r. r ≡ has_repeat has_same_interval subtrees.now) }
{
    let mut seen = BTreeSet::new(alloc);
    for one in subtrees {
        if !seen.insert((one.start, one.end))? {
            return Ok(true);
        }
    }
    Ok(false)
}

// One of these has the cosigner's id.
fn is_among(one: &Known, others: &[Known]) -> bool
    ensures { result ≡ list_any (has_same_id one.now) others.now }
{
    others
        .iter()
        .any(|other| one.id.as_bytes() == other.id.as_bytes())
}

// Two of these have one id.
#[tactic(auto, unfolding(crate::specs::Stores::has_repeat))]
fn ids_repeat(known: &[Known]) -> bool
    ensures { result ≡ has_repeat has_same_id known.now }
{
    let mut rest = known;
    while let [one, following @ ..] = rest {
        if is_among(one, following) {
            return true;
        }
        rest = following;
    }
    false
}

// Each interval is that of a subtree.
fn are_valid(subtrees: &[Trusted]) -> bool
    ensures { result ≡ are_subtrees subtrees.now }
{
    subtrees.iter().all(|one| subtree_ok(one.start, one.end))
}

// Each range holds a number.
fn all_inhabited(ranges: &[Span]) -> bool
    ensures { result ≡ are_inhabited ranges.now }
{
    ranges.iter().all(|range| range.start < range.end)
}

// No fault is found in the store: no two cosigners have one id, no interval is trusted twice, each
// is that of a subtree, and each range holds a number.
#[tactic(auto, unfolding(crate::specs::Files::checked_store))]
fn check_values(alloc: Global, store: &Store) -> Result<(), StoreError>
    ensures ok { IfOk result (λ _. checked_store store.now ≡ Ok store.now) }
    ensures err { IfErr result (λ e. e ≢ StoreError.Memory → checked_store store.now ≡ Err e) }
    ensures valid { store.now.name ≡ name_with (text_of store.now.log)
        → AllByRecursion (IsRule (length store.now.cosigners)) store.now.rules
        → IfOk result (λ _. IsValid store.now) }
{
    if ids_repeat(store.cosigners.as_slice()) {
        return Err(StoreError::RepeatedId);
    }
    if repeats(alloc, store.subtrees.as_slice())? {
        return Err(StoreError::RepeatedSubtree);
    }
    if !are_valid(store.subtrees.as_slice()) {
        return Err(StoreError::BadRange);
    }
    if !all_inhabited(store.revoked.as_slice()) {
        return Err(StoreError::BadRange);
    }
    Ok(())
}

/// The store, where it is one as a whole: no two cosigners have one id, no interval is trusted
/// twice, each is that of a subtree, and each range holds a number.
pub fn check(alloc: Global, store: Store) -> Result<Store, StoreError>
    ensures exact { Answers StoreError.Memory (checked_store store) result }
    ensures same { IfOk result (λ whole. whole ≡ store) }
    ensures valid { store.name ≡ name_with (text_of store.log)
        → AllByRecursion (IsRule (length store.cosigners)) store.rules → IfOk result IsValid }
{
    check_values(alloc, &store)?;
    Ok(store)
}
