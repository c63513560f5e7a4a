//! The rules of a store file.

ghost use Rattle.std.specs.Prelude.{◌≡◌, ◌≢◌, ◌&&◌, ◌≤◌, nat_le, not, length, codes, Ok, Err, IfOk};
ghost use Rattle.std.specs.Prelude.{IfErr, IfSome};
ghost use Rattle.std.specs.List.{AllByRecursion, list_any};
ghost use Rattle.byte_formats.specs.Readings.{Answers};
ghost use Rattle.toml.specs.Data.{get_member};
ghost use Rattle.toml.specs.View.{items_view, table_view, view};
ghost use Rattle.policy_core.specs.declared.error.StoreError.{StoreError};
ghost use Rattle.policy_core.specs.Fields.{each_of, store_field};
ghost use Rattle.policy_core.specs.Limits.{most_cosigners};
ghost use Rattle.policy_core.specs.CosignerFields.{count_data, if_different, index_data};
ghost use Rattle.policy_core.specs.CosignerFields.{index_found};
ghost use Rattle.policy_core.specs.CosignerFields.{indices_data, indices_among, rule_data};
ghost use Rattle.policy_core.specs.CosignerFields.{rules_at};
ghost use Rattle.policy_core.specs.Stores.{has_repeat, is_same_index, IsRule};

use crate::cosigners::{Cosigners, Known};
use crate::error::{Key, StoreError};
use crate::fields::{id_of, items_at, table_with};
use crate::rules::{Indices, Rule, Rules};
use mtc_io::Memory;
use std::alloc::Global;
use toml::{Table, Value};
use toml_fields::{number_of, value_at};

// The index of the cosigner with this id.
fn index_of(known: &[Known], id: &[u8]) -> Option<usize>
    ensures { result ≡ index_found known.now id.now }
{
    known.iter().position(|one| one.id.as_bytes() == id)
}

// The same, in the 32 bits in which a rule stores it: a store has few cosigners.
#[tactic(auto, using(crate::proofs::FileRules::position_below))]
fn index_found(known: &[Known], id: &[u8]) -> Option<u32>
    requires { length known.now ≤ most_cosigners }
    ensures { result ≡ index_found known.now id.now }
{
    match index_of(known, id) {
        Some(place) => Some(place as u32),
        None => None,
    }
}

// The index of the cosigner that a value names.
#[tactic(auto, unfolding(crate::specs::CosignerFields::index_data))]
fn index_at(alloc: Global, known: &[Known], value: &Value) -> Result<Option<u32>, Memory>
    requires { length known.now ≤ most_cosigners }
    ensures { IfOk result (λ o. o ≡ index_data known.now (view value.now)) }
{
    match id_of(alloc, value)? {
        Some(id) => Ok(index_found(known, id.as_bytes())),
        None => Ok(None),
    }
}

// The indices that all the values name.
fn indices_among(
    alloc: Global,
    known: &[Known],
    values: &[Value],
) -> Result<Option<Indices>, Memory>
    requires { length known.now ≤ most_cosigners }
    ensures { IfOk result (λ o. o ≡ indices_among known.now (items_view values.now)) }
{
    let mut indices = Vec::new(alloc);
    for value in values {
        let Some(place) = index_at(alloc, known, value)? else {
            return Ok(None);
        };
        indices.push(place)?;
    }
    Ok(Some(Indices::from_vec(indices)))
}

// The index is one of these.
fn is_among(place: u32, others: &[u32]) -> bool
    ensures { result ≡ list_any (is_same_index place) others.now }
{
    others.iter().any(|other| place == *other)
}

/// Two of the indices are the same.
#[tactic(auto, unfolding(crate::specs::Stores::has_repeat))]
pub(crate) fn repeats(indices: &[u32]) -> bool
    ensures { result ≡ has_repeat is_same_index indices.now }
{
    let mut rest = indices;
    while let [place, following @ ..] = rest {
        if is_among(*place, following) {
            return true;
        }
        rest = following;
    }
    false
}

// No index occurs twice, and there are no more than so many.
fn are_different(indices: &[u32], known: usize) -> bool
    ensures { result
        ≡ (nat_le (length indices.now) known && not (has_repeat is_same_index indices.now)) }
{
    indices.len() <= known && !repeats(indices)
}

// The indices, if they are of different cosigners, of whom there are so many.
fn if_different(indices: Indices, known: usize) -> Option<Indices>
    ensures exact { result ≡ if_different known indices }
    ensures few { IfSome result (λ ps. length ps ≤ known) }
{
    if are_different(indices.as_slice(), known) {
        Some(indices)
    } else {
        None
    }
}

// The indices that a value names, if it is a list of different cosigners.
#[tactic(auto, unfolding(crate::specs::CosignerFields::indices_data))]
fn indices_of(alloc: Global, known: &[Known], value: &Value) -> Result<Option<Indices>, Memory>
    requires { length known.now ≤ most_cosigners }
    ensures exact { IfOk result (λ o. o ≡ indices_data known.now (view value.now)) }
    ensures few { IfOk result (λ o. IfSome o (λ ps. length ps ≤ most_cosigners)) }
{
    let Some(items) = value.as_array() else {
        return Ok(None);
    };
    match indices_among(alloc, known, items.as_slice())? {
        Some(indices) => Ok(if_different(indices, known.len())),
        None => Ok(None),
    }
}

// The cosigners of a rule.
fn indices_at(alloc: Global, known: &[Known], table: &Table) -> Result<Indices, StoreError>
    requires { length known.now ≤ most_cosigners }
    ensures exact { Answers StoreError.Memory (store_field Key.Cosigners (indices_data known.now)
        (get_member (codes "cosigners") (table_view table.now))) result }
    ensures few { IfOk result (λ ps. length ps ≤ most_cosigners) }
{
    let Some(value) = value_at(table, "cosigners") else {
        return Err(StoreError::Missing(Key::Cosigners));
    };
    match indices_of(alloc, known, value)? {
        Some(indices) => Ok(indices),
        None => Err(StoreError::BadValue(Key::Cosigners)),
    }
}

// The number, where it is from 1 to the most.
#[tactic(auto, unfolding(crate::specs::CosignerFields::count_data))]
fn count_of(value: &Value, most: usize) -> Option<u32>
    requires { most ≤ most_cosigners }
    ensures { result ≡ count_data most (view value.now) }
{
    match number_of(value) {
        Some(count) if count >= 1 && count <= most as u64 => Some(count as u32),
        _ => None,
    }
}

// How many cosigners a rule asks for, which names so many.
fn count_at(table: &Table, most: usize) -> Result<u32, StoreError>
    requires { most ≤ most_cosigners }
    ensures { result ≡ store_field Key.Count (count_data most)
        (get_member (codes "count") (table_view table.now)) }
{
    let Some(value) = value_at(table, "count") else {
        return Err(StoreError::Missing(Key::Count));
    };
    count_of(value, most).ok_or(StoreError::BadValue(Key::Count))
}

// One rule over these cosigners.
#[tactic(auto, unfolding(crate::specs::CosignerFields::rule_data))]
fn rule_of(alloc: Global, known: &[Known], value: &Value) -> Result<Rule, StoreError>
    requires { length known.now ≤ most_cosigners }
    ensures { Answers StoreError.Memory (rule_data known.now (view value.now)) result }
{
    let table = table_with(value, &["cosigners", "count"])?;
    let cosigners = indices_at(alloc, known, table)?;
    let count = count_at(table, cosigners.as_slice().len())?;
    Ok(Rule { count, cosigners })
}

// The rules, each in its turn.
fn each_rule(alloc: Global, known: &[Known], values: &[Value]) -> Result<Vec<Rule>, StoreError>
    requires { length known.now ≤ most_cosigners }
    ensures ok { IfOk result (λ xs. each_of (rule_data known.now) (items_view values.now)
        ≡ Ok xs.items) }
    ensures err { IfErr result (λ e. e ≢ StoreError.Memory
        → each_of (rule_data known.now) (items_view values.now) ≡ Err e) }
{
    let mut rules = Vec::new(alloc);
    for value in values {
        rules.push(rule_of(alloc, known, value)?)?;
    }
    Ok(rules)
}

/// The rules of a store over its cosigners.
pub fn rules_of(alloc: Global, known: &Cosigners, root: &Table) -> Result<Rules, StoreError>
    ensures exact { Answers StoreError.Memory
        (rules_at known.now (get_member (codes "rule") (table_view root.now))) result }
    ensures rules { IfOk result (λ rs. AllByRecursion (IsRule (length known.now)) rs) }
{
    let values = items_at(root, "rule")?;
    Ok(Rules::from_vec(each_rule(alloc, known.as_slice(), values)?))
}
