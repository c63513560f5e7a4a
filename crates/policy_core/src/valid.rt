//! Stores that are valid by their type.

ghost use Rattle.std.specs.Prelude.{◌≡◌, ◌≢◌, ◌&&◌, nat_le, nat_lt, not, true, length, Err};
ghost use Rattle.std.specs.Prelude.{IfOk, IfErr};
ghost use Rattle.std.specs.List.{AllByRecursion, list_all};
ghost use Rattle.std.specs.Str.{bytes_eq};
ghost use Rattle.byte_formats.specs.Readings.{Answers};
ghost use Rattle.cert_names.specs.LogNames.{name_with};
ghost use Rattle.policy_core.specs.declared.error.StoreError.{StoreError};
ghost use Rattle.policy_core.specs.Files.{checked_store, store_of, valid_store};
ghost use Rattle.policy_core.specs.Stores.{empty_store, has_repeat, is_rule, is_same_index};
ghost use Rattle.policy_core.specs.Stores.{IsRule, IsValid};
ghost use Rattle.tls_wire.specs.Anchors.{text_of};

use crate::cosigners::Cosigners;
use crate::error::{Key, StoreError};
use crate::lists::{Revoked, Subtrees};
use crate::rule_fields::repeats;
use crate::rules::{Rule, Rules};
use crate::store::Store;
use crate::whole::check;
use cert_names::log_name;
use mtc_io::Memory;
use std::alloc::Global;
use std::marker::Model;
use tls_wire::AnchorId;

/// A store that is valid: its name is that of its log, no two of its cosigners have one id, each
/// rule is over different ones of them and asks for one at least and for all at most, each trusted
/// interval is that of a subtree and is trusted once, and each revoked range holds a number.
/// Contracts see the store.
#[derive(Debug, Drop)]
pub struct ValidStore {
    store: Store,
}

impl Model for ValidStore {
    ghost use Rattle.policy_core.specs.declared.store.Store.{Store};
    ghost use Rattle.policy_core.specs.Stores.{IsValid};

    ghost Value = { Store };

    ghost view = { λ s. s.store };

    ghost invariant = { λ s. IsValid s.store };
}

// The store has the name of its log.
#[tactic(auto, using(crate::proofs::Wholes::is_name))]
fn is_named(alloc: Global, store: &Store) -> Result<bool, Memory>
    ensures value { IfOk result
        (λ is. is ≡ bytes_eq store.now.name (name_with (text_of store.now.log))) }
    ensures named { IfOk result
        (λ is. is ≡ true → store.now.name ≡ name_with (text_of store.now.log)) }
{
    let name = log_name(alloc, &store.log)?;
    Ok(store.name.as_slice() == name.as_slice())
}

// Each index is below this one.
fn are_below(indices: &[u32], known: usize) -> bool
    ensures { result ≡ list_all (λ n. nat_lt n known) indices.now }
{
    indices.iter().all(|index| (*index as usize) < known)
}

// The indices are of different ones of so many cosigners.
fn are_indices(indices: &[u32], known: usize) -> bool
    ensures { result ≡ (list_all (λ n. nat_lt n known) indices.now
        && not (has_repeat is_same_index indices.now)) }
{
    are_below(indices, known) && !repeats(indices)
}

// The number is from 1 to the most.
fn is_count(count: u32, most: usize) -> bool
    ensures { result ≡ (nat_le 1 count && nat_le count most) }
{
    1 <= count && count as usize <= most
}

// The rule is one over so many cosigners.
fn is_rule(rule: &Rule, known: usize) -> bool
    ensures { result ≡ is_rule known rule.now }
{
    let indices = rule.cosigners.as_slice();
    are_indices(indices, known) && is_count(rule.count, indices.len())
}

// Each rule is one over so many cosigners.
fn are_rules(rules: &[Rule], known: usize) -> bool
    ensures { result ≡ list_all (is_rule known) rules.now }
{
    rules.iter().all(|rule| is_rule(rule, known))
}

// The store has the name of its log, and each rule is one over its cosigners.
#[tactic(auto, using(crate::proofs::Wholes::all_are), unfolding(crate::specs::Files::valid_store))]
fn check_parts(alloc: Global, store: &Store) -> Result<(), StoreError>
    ensures refused { IfErr result
        (λ why. why ≢ StoreError.Memory → valid_store store.now ≡ Err why) }
    ensures passed { IfOk result (λ _. valid_store store.now ≡ checked_store store.now) }
    ensures name { IfOk result (λ _. store.now.name ≡ name_with (text_of store.now.log)) }
    ensures rules { IfOk result
        (λ _. AllByRecursion (IsRule (length store.now.cosigners)) store.now.rules) }
{
    if !is_named(alloc, store)? {
        return Err(StoreError::BadValue(Key::LogId));
    }
    if !are_rules(store.rules.as_slice(), store.cosigners.as_slice().len()) {
        return Err(StoreError::BadValue(Key::Cosigners));
    }
    Ok(())
}

impl Store {
    /// The store for a log, with the name of its certificates, in which nothing else stands. A
    /// program that has no store file fills it, and tests it by [`Store::checked`].
    pub fn new(alloc: Global, log: AnchorId) -> Result<Store, Memory>
        ensures { IfOk result (λ store. store ≡ empty_store log) }
    {
        Ok(Store {
            name: log_name(alloc, &log)?,
            log,
            algorithm_from: None,
            cosigners: Cosigners::from_vec(Vec::new(alloc)),
            rules: Rules::from_vec(Vec::new(alloc)),
            subtrees: Subtrees::from_vec(Vec::new(alloc)),
            revoked: Revoked::from_vec(Vec::new(alloc)),
        })
    }

    /// The store, where it is valid. A program that fills a store by itself tests it once, here. A
    /// valid store is refused only if memory runs out.
    ///
    /// Refusals, in this order: `BadValue(LogId)` where the name isn't that of the log;
    /// `BadValue(Cosigners)` where a rule isn't one over the store's cosigners; and then those of
    /// [`Store::read`] for the whole, `RepeatedId`, `RepeatedSubtree` and `BadRange`.
    #[tactic(auto, using(crate::proofs::Wholes::invalid))]
    pub fn checked(self, alloc: Global) -> Result<ValidStore, StoreError>
        ensures exact { Answers StoreError.Memory (valid_store self) result }
        ensures same { IfOk result (λ store. store ≡ self) }
        ensures refused { IfErr result (λ why. why ≢ StoreError.Memory → ¬ (IsValid self)) }
    {
        check_parts(alloc, &self)?;
        let store = check(alloc, self)?;
        Ok(ValidStore { store })
    }
}

impl ValidStore {
    /// Reads a store file, with the refusals of [`Store::read`].
    pub fn read(alloc: Global, text: &[u8]) -> Result<ValidStore, StoreError>
        ensures { Answers StoreError.Memory (store_of text.now) result }
    {
        let store = Store::read(alloc, text)?;
        Ok(ValidStore { store })
    }

    /// The store.
    pub fn as_store(&self) -> &Store
        ensures same { result.now ≡ self.now }
        ensures valid { IsValid result.now }
    {
        &self.store
    }

    /// The store as one that can be changed.
    pub fn into_store(self) -> Store
        ensures same { result ≡ self }
        ensures valid { IsValid result }
    {
        self.store
    }
}
