//! The tables of a store file, and their fields.

ghost use Rattle.std.specs.Prelude.{◌≡◌, ◌≢◌, map, codes, Result, Ok, Err, IfOk, IfErr};
ghost use Rattle.byte_formats.specs.Readings.{Answers, Gives};
ghost use Rattle.toml.specs.Data.{Data, get_member};
ghost use Rattle.toml.specs.View.{items_view, table_view, view};
ghost use Rattle.toml_fields.specs.Codes.{hash_data, number_data};
ghost use Rattle.toml_fields.specs.Fields.{optional_field};
ghost use Rattle.policy_core.specs.declared.error.StoreError.{StoreError};
ghost use Rattle.policy_core.specs.Fields.{each_of, store_field, id_data, items_at, list_at};
ghost use Rattle.policy_core.specs.Fields.{table_with};
ghost use Rattle.policy_core.specs.Files.{log_at, range_data, subtree_data};

use crate::error::{Key, StoreError};
use crate::lists::{Revoked, Subtrees, Trusted};
use mtc_io::Memory;
use std::alloc::Global;
use tls_wire::{AnchorError, AnchorId};
use toml::{Table, Value};
use toml_fields::{hash_of, keys_are_among, number_of, value_at};
use tree_core::Span;

/// A table that has no other keys than these.
pub fn table_with<'a>(value: &'a Value, names: &[&str]) -> Result<&'a Table, StoreError>
    ensures { Gives (λ t. table_view t.now) result
        (table_with (map (λ n. n.now) names.now) (view value.now)) }
{
    let Some(table) = value.as_table() else {
        return Err(StoreError::BadValue(Key::Table));
    };
    if keys_are_among(table, names) {
        Ok(table)
    } else {
        Err(StoreError::UnknownKey)
    }
}

// The number at a key.
fn number_at(table: &Table, name: &str, key: Key) -> Result<u64, StoreError>
    ensures { result ≡ store_field key number_data (get_member name.now (table_view table.now)) }
{
    let Some(value) = value_at(table, name) else {
        return Err(StoreError::Missing(key));
    };
    number_of(value).ok_or(StoreError::BadValue(key))
}

// The number at a key, where there is one.
fn number_or_none(table: &Table, name: &str, key: Key) -> Result<Option<u64>, StoreError>
    ensures { result ≡ optional_field (StoreError.BadValue key) number_data
        (get_member name.now (table_view table.now)) }
{
    let Some(value) = value_at(table, name) else {
        return Ok(None);
    };
    match number_of(value) {
        Some(number) => Ok(Some(number)),
        None => Err(StoreError::BadValue(key)),
    }
}

// The hash of a subtree.
fn hash_at(table: &Table) -> Result<[u8; 32], StoreError>
    ensures { result
        ≡ store_field Key.Hash hash_data (get_member (codes "hash") (table_view table.now)) }
{
    let Some(value) = value_at(table, "hash") else {
        return Err(StoreError::Missing(Key::Hash));
    };
    hash_of(value).ok_or(StoreError::BadValue(Key::Hash))
}

/// An anchor id, where the value is the text of one.
#[tactic(auto, unfolding(crate::specs::Fields::id_data))]
pub fn id_of(alloc: Global, value: &Value) -> Result<Option<AnchorId>, Memory>
    ensures { IfOk result (λ o. o ≡ id_data (view value.now)) }
{
    let Some(text) = value.as_str() else {
        return Ok(None);
    };
    match AnchorId::from_text(alloc, text) {
        Ok(id) => Ok(Some(id)),
        Err(AnchorError::Memory) => Err(Memory),
        Err(_) => Ok(None),
    }
}

// The id in the log's table.
fn id_at(alloc: Global, table: &Table) -> Result<AnchorId, StoreError>
    ensures { Answers StoreError.Memory
        (store_field Key.LogId id_data (get_member (codes "id") (table_view table.now))) result }
{
    let Some(value) = value_at(table, "id") else {
        return Err(StoreError::Missing(Key::LogId));
    };
    id_of(alloc, value)?.ok_or(StoreError::BadValue(Key::LogId))
}

/// The id of the log, and from which index on its entries name the algorithm of the key.
pub fn log_of(alloc: Global, root: &Table) -> Result<(AnchorId, Option<u64>), StoreError>
    ensures { Answers StoreError.Memory
        (log_at (get_member (codes "log") (table_view root.now))) result }
{
    let Some(value) = value_at(root, "log") else {
        return Err(StoreError::Missing(Key::LogId));
    };
    let table = table_with(value, &["id", "algorithm_from"])?;
    let id = id_at(alloc, table)?;
    let from = number_or_none(table, "algorithm_from", Key::AlgorithmFrom)?;
    Ok((id, from))
}

// What is read from an item of a list of tables.
trait Item: Sized {
    /// What a value says as an item, or its first fault.
    ghost says: { Data → Result Self StoreError };

    /// Reads an item.
    fn of(value: &Value) -> Result<Self, StoreError>
        ensures { result ≡ says (view value.now) };
}

// One subtree.
impl Item for Trusted {
    ghost says = { subtree_data };

    #[tactic(auto, unfolding(crate::specs::Files::subtree_data))]
    fn of(value: &Value) -> Result<Trusted, StoreError> {
        let table = table_with(value, &["start", "end", "hash"])?;
        let start = number_at(table, "start", Key::Start)?;
        let end = number_at(table, "end", Key::End)?;
        let hash = hash_at(table)?;
        Ok(Trusted { start, end, hash })
    }
}

// One range of serial numbers.
impl Item for Span {
    ghost says = { range_data };

    #[tactic(auto, unfolding(crate::specs::Files::range_data))]
    fn of(value: &Value) -> Result<Span, StoreError> {
        let table = table_with(value, &["start", "end"])?;
        let start = number_at(table, "start", Key::Start)?;
        let end = number_at(table, "end", Key::End)?;
        Ok(Span { start, end })
    }
}

/// The items of a list of tables; none where the list is absent.
pub fn items_at<'a>(root: &'a Table, name: &str) -> Result<&'a [Value], StoreError>
    ensures { Gives (λ vs. items_view vs.now) result
        (items_at (get_member name.now (table_view root.now))) }
{
    let Some(value) = value_at(root, name) else {
        return Ok(&[]);
    };
    match value.as_array() {
        Some(items) => Ok(items.as_slice()),
        None => Err(StoreError::BadValue(Key::Table)),
    }
}

// What the items say, each in its turn.
fn each_of<T: Item + Drop>(alloc: Global, values: &[Value]) -> Result<Vec<T>, StoreError>
    ensures ok { IfOk result (λ xs. each_of T.says (items_view values.now) ≡ Ok xs.items) }
    ensures err { IfErr result (λ e. e ≢ StoreError.Memory
        → each_of T.says (items_view values.now) ≡ Err e) }
{
    let mut items = Vec::new(alloc);
    for value in values {
        items.push(T::of(value)?)?;
    }
    Ok(items)
}

/// The subtrees of a store.
pub fn subtrees_of(alloc: Global, root: &Table) -> Result<Subtrees, StoreError>
    ensures { Answers StoreError.Memory
        (list_at subtree_data (get_member (codes "subtree") (table_view root.now))) result }
{
    Ok(Subtrees::from_vec(each_of(alloc, items_at(root, "subtree")?)?))
}

/// The revoked ranges of a store.
pub fn revoked_of(alloc: Global, root: &Table) -> Result<Revoked, StoreError>
    ensures { Answers StoreError.Memory
        (list_at range_data (get_member (codes "revoked") (table_view root.now))) result }
{
    Ok(Revoked::from_vec(each_of(alloc, items_at(root, "revoked")?)?))
}
