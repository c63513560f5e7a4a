//! Reading a store file.

ghost use Rattle.std.specs.Prelude.{◌≡◌, ◌≢◌, length, codes, Ok, Err, IfOk, IfErr};
ghost use Rattle.std.specs.List.{AllByRecursion};
ghost use Rattle.byte_formats.specs.Readings.{Answers};
ghost use Rattle.toml.specs.Data.{get_member};
ghost use Rattle.toml.specs.View.{table_view};
ghost use Rattle.policy_core.specs.declared.error.StoreError.{StoreError};
ghost use Rattle.policy_core.specs.CosignerFields.{cosigners_at, rules_at};
ghost use Rattle.policy_core.specs.Fields.{list_at};
ghost use Rattle.policy_core.specs.Files.{range_data, revoked_in, rules_in, subtree_data, store_in};
ghost use Rattle.policy_core.specs.Files.{store_of};
ghost use Rattle.policy_core.specs.Stores.{IsRule, IsValid};

use crate::cosigner_fields::cosigners_of;
use crate::cosigners::Cosigners;
use crate::error::StoreError;
use crate::fields::{log_of, revoked_of, subtrees_of};
use crate::lists::{Revoked, Subtrees};
use crate::rule_fields::rules_of;
use crate::rules::Rules;
use crate::store::Store;
use crate::whole::check;
use cert_names::log_name;
use std::alloc::Global;
use toml::Table;
use toml_fields::{TreeError, keys_are_among, read_tree};

// The cosigners, and the rules over them.
fn signers_of(alloc: Global, root: &Table) -> Result<(Cosigners, Rules), StoreError>
    ensures ok { IfOk result (λ s.
        (cosigners_at (get_member (codes "cosigner") (table_view root.now)) ≡ Ok s.0)
        × (rules_at s.0 (get_member (codes "rule") (table_view root.now)) ≡ Ok s.1)) }
    ensures err { IfErr result (λ e. e ≢ StoreError.Memory
        → rules_in (table_view root.now) ≡ Err e) }
    ensures rules { IfOk result (λ s. AllByRecursion (IsRule (length s.0)) s.1) }
{
    let cosigners = cosigners_of(alloc, root)?;
    let rules = rules_of(alloc, &cosigners, root)?;
    Ok((cosigners, rules))
}

// The trusted subtrees, and the revoked ranges.
fn lists_of(alloc: Global, root: &Table) -> Result<(Subtrees, Revoked), StoreError>
    ensures ok { IfOk result (λ s.
        (list_at subtree_data (get_member (codes "subtree") (table_view root.now)) ≡ Ok s.0)
        × (list_at range_data (get_member (codes "revoked") (table_view root.now)) ≡ Ok s.1)) }
    ensures err { IfErr result (λ e. e ≢ StoreError.Memory
        → revoked_in (table_view root.now) ≡ Err e) }
{
    let subtrees = subtrees_of(alloc, root)?;
    let revoked = revoked_of(alloc, root)?;
    Ok((subtrees, revoked))
}

// The store that the fields of the root say, valid as a whole.
#[tactic(auto, unfolding(crate::specs::Files::store_in))]
fn store_from(alloc: Global, root: &Table) -> Result<Store, StoreError>
    ensures exact { Answers StoreError.Memory (store_in (table_view root.now)) result }
    ensures valid { IfOk result IsValid }
{
    let (log, algorithm_from) = log_of(alloc, root)?;
    let name = log_name(alloc, &log)?;
    let (cosigners, rules) = signers_of(alloc, root)?;
    let (subtrees, revoked) = lists_of(alloc, root)?;
    let store = Store {
        log,
        name,
        algorithm_from,
        cosigners,
        rules,
        subtrees,
        revoked,
    };
    check(alloc, store)
}

// The store of a text that is TOML and whose root has no other tables.
#[tactic(auto, unfolding(crate::specs::Files::store_of))]
fn read_store(alloc: Global, text: &[u8]) -> Result<Store, StoreError>
    ensures exact { Answers StoreError.Memory (store_of text.now) result }
    ensures valid { IfOk result IsValid }
{
    let root = match read_tree(alloc, text) {
        Ok(root) => root,
        Err(TreeError::NotToml) => return Err(StoreError::NotToml),
        Err(TreeError::Memory) => return Err(StoreError::Memory),
    };
    if keys_are_among(&root, &["log", "cosigner", "rule", "subtree", "revoked"]) {
        store_from(alloc, &root)
    } else {
        Err(StoreError::UnknownKey)
    }
}

impl Store {
    /// Reads a store file. It has a table `log` with the text `id`, an anchor id in dotted decimal,
    /// and where entries name the algorithm of the key the number `algorithm_from`, the first index
    /// of one; and may have lists of tables: `cosigner`, at most 64, with the texts `id`, an anchor
    /// id, and `key`, an HSS public key (RFC 8554, section 6.1) in base64; `rule` with the list
    /// `cosigners` of ids of different cosigners and the number `count`, from 1 to their number;
    /// `subtree` with the numbers `start` and `end` and the text `hash` of 64 hexadecimal digits;
    /// and `revoked` with the numbers `start` and `end`. The first fault is answered, in the order
    /// of [`StoreError`]; what is answered is a valid store.
    pub fn read(alloc: Global, text: &[u8]) -> Result<Store, StoreError>
        ensures exact { Answers StoreError.Memory (store_of text.now) result }
        ensures valid { IfOk result IsValid }
    {
        read_store(alloc, text)
    }
}
