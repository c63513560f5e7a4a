//! The cosigners of a store file.

ghost use Rattle.std.specs.Prelude.{◌≡◌, ◌≢◌, ◌<◌, ◌≤◌, length, codes, Ok, Err, IfOk, IfErr};
ghost use Rattle.byte_formats.specs.Readings.{Answers};
ghost use Rattle.toml.specs.Data.{get_member};
ghost use Rattle.toml.specs.View.{items_view, table_view, view};
ghost use Rattle.policy_core.specs.declared.error.StoreError.{StoreError};
ghost use Rattle.policy_core.specs.Fields.{store_field};
ghost use Rattle.policy_core.specs.Limits.{most_cosigners};
ghost use Rattle.policy_core.specs.CosignerFields.{cosigner_data, cosigners_at, cosigners_from};
ghost use Rattle.policy_core.specs.CosignerFields.{id_data_at, hss_key, hss_key_data};

use crate::cosigners::{Cosigners, Known, MOST_COSIGNERS};
use crate::error::{Key, StoreError};
use crate::fields::{id_of, items_at, table_with};
use hss_core::{PUBLIC_KEY_LEN, read_key};
use mtc_io::Memory;
use std::alloc::Global;
use tls_wire::AnchorId;
use toml::{Table, Value};
use toml_fields::{bytes_of, value_at};

// The id of the cosigner at this index. It is none from the 65th on.
fn id_at(alloc: Global, table: &Table, place: usize) -> Result<AnchorId, StoreError>
    ensures exact { Answers StoreError.Memory
        (store_field Key.CosignerId (id_data_at place)
        (get_member (codes "id") (table_view table.now))) result }
    ensures within { IfOk result (λ _. place < most_cosigners) }
{
    let Some(value) = value_at(table, "id") else {
        return Err(StoreError::Missing(Key::CosignerId));
    };
    if place >= MOST_COSIGNERS {
        return Err(StoreError::BadValue(Key::CosignerId));
    }
    id_of(alloc, value)?.ok_or(StoreError::BadValue(Key::CosignerId))
}

// The public key, where the bytes are one.
#[tactic(auto, unfolding(crate::specs::CosignerFields::hss_key))]
fn public_key(bytes: &[u8]) -> Option<[u8; PUBLIC_KEY_LEN]>
    ensures { result ≡ hss_key bytes.now }
{
    let _types = read_key(bytes)?;
    let mut key = [0; PUBLIC_KEY_LEN];
    key.copy_from_slice(bytes);
    Some(key)
}

// The public key, where the value is the text of one.
#[tactic(auto, unfolding(crate::specs::CosignerFields::hss_key_data))]
fn key_of(alloc: Global, value: &Value) -> Result<Option<[u8; PUBLIC_KEY_LEN]>, Memory>
    ensures { IfOk result (λ o. o ≡ hss_key_data (view value.now)) }
{
    match bytes_of(alloc, value)? {
        Some(bytes) => Ok(public_key(bytes.as_slice())),
        None => Ok(None),
    }
}

// The public key of a cosigner.
fn key_at(alloc: Global, table: &Table) -> Result<[u8; PUBLIC_KEY_LEN], StoreError>
    ensures { Answers StoreError.Memory
        (store_field Key.CosignerKey hss_key_data (get_member (codes "key") (table_view table.now)))
        result }
{
    let Some(value) = value_at(table, "key") else {
        return Err(StoreError::Missing(Key::CosignerKey));
    };
    key_of(alloc, value)?.ok_or(StoreError::BadValue(Key::CosignerKey))
}

// The cosigner at this index.
#[tactic(auto, unfolding(crate::specs::CosignerFields::cosigner_data))]
fn cosigner_of(alloc: Global, value: &Value, place: usize) -> Result<Known, StoreError>
    ensures exact { Answers StoreError.Memory (cosigner_data place (view value.now)) result }
    ensures within { IfOk result (λ _. place < most_cosigners) }
{
    let table = table_with(value, &["id", "key"])?;
    let id = id_at(alloc, table, place)?;
    let key = key_at(alloc, table)?;
    Ok(Known { id, key })
}

// The cosigners, each in its turn.
fn each_cosigner(alloc: Global, values: &[Value]) -> Result<Vec<Known>, StoreError>
    ensures ok { IfOk result (λ xs. cosigners_from 0 (items_view values.now) ≡ Ok xs.items) }
    ensures err { IfErr result (λ e. e ≢ StoreError.Memory
        → cosigners_from 0 (items_view values.now) ≡ Err e) }
    ensures few { IfOk result (λ xs. length xs.items ≤ most_cosigners) }
{
    let mut cosigners = Vec::new(alloc);
    for value in values {
        let cosigner = cosigner_of(alloc, value, cosigners.len())?;
        cosigners.push(cosigner)?;
    }
    Ok(cosigners)
}

/// The cosigners of a store.
pub fn cosigners_of(alloc: Global, root: &Table) -> Result<Cosigners, StoreError>
    ensures { Answers StoreError.Memory
        (cosigners_at (get_member (codes "cosigner") (table_view root.now))) result }
{
    Ok(Cosigners::from_vec(each_cosigner(alloc, items_at(root, "cosigner")?)?))
}
