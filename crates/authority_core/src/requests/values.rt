//! The values of a request's fields.

ghost use Rattle.std.specs.Prelude.{◌≡◌, ◌≤◌, length, codes, IfOk, IfSome};
ghost use Rattle.byte_formats.specs.Readings.{Answers};
ghost use Rattle.cert_fields.specs.Grammar.{IsPublicKey};
ghost use Rattle.cert_time.specs.Calendar.{IsUnixTime};
ghost use Rattle.toml.specs.Data.{get_member};
ghost use Rattle.toml.specs.View.{items_view, table_view, view};
ghost use Rattle.authority_core.specs.Files.{common_name_data, field, field_or_none, host_data};
ghost use Rattle.authority_core.specs.Files.{hosts_in, public_key_data, names_data, time_data};
ghost use Rattle.cert_names.specs.Hosts.{IsHostName};
ghost use Rattle.authority_core.specs.Requests.{IsCommonName};

use crate::requests::error::{Field, RequestError};
use crate::requests::names::Names;
use cert_fields::is_public_key;
use cert_names::is_host;
use cert_time::text_to_seconds;
use mtc_io::{Bytes, Memory};
use std::alloc::Global;
use toml::{Table, Value};
use toml_fields::{bytes_of, value_at};

// A request has at most so many names.
const MOST_NAMES: usize = 100;

// A time, as a text.
#[tactic(auto, unfolding(crate::specs::Files::time_data))]
fn time_of(value: &Value) -> Option<i64>
    ensures value { result ≡ time_data (view value.now) }
    ensures range { IfSome result IsUnixTime }
{
    match value.as_str() {
        Some(text) => text_to_seconds(text),
        None => None,
    }
}

/// The time of a field.
pub fn time_at(table: &Table, name: &str, which: Field) -> Result<i64, RequestError>
    ensures value { result ≡ field which time_data (get_member name.now (table_view table.now)) }
    ensures range { IfOk result IsUnixTime }
{
    let Some(value) = value_at(table, name) else {
        return Err(RequestError::Missing(which));
    };
    time_of(value).ok_or(RequestError::BadValue(which))
}

// One host name.
#[tactic(auto, unfolding(crate::specs::Files::host_data))]
fn host_of(alloc: Global, value: &Value) -> Result<Option<Bytes>, Memory>
    ensures value { IfOk result (λ o. o ≡ host_data (view value.now)) }
    ensures host { IfOk result (λ o. IfSome o IsHostName) }
{
    match value.as_str() {
        Some(text) if is_host(text.as_bytes()) => {
            Ok(Some(Bytes::copy_of(alloc, text.as_bytes())?))
        }
        _ => Ok(None),
    }
}

// The host names that the items are, each of them.
fn hosts_of(alloc: Global, values: &[Value]) -> Result<Option<Names>, Memory>
    requires { length values.now ≤ 100 }
    ensures { IfOk result (λ o. o ≡ hosts_in (items_view values.now)) }
{
    let mut items = Vec::new(alloc);
    for value in values {
        let Some(name) = host_of(alloc, value)? else {
            return Ok(None);
        };
        items.push(name)?;
    }
    Ok(Some(Names::from_vec(items)))
}

// An array of at most 100 host names.
#[tactic(auto, using(crate::proofs::Items::items_seen), unfolding(crate::specs::Files::names_data))]
fn names_of(alloc: Global, value: &Value) -> Result<Option<Names>, Memory>
    ensures { IfOk result (λ o. o ≡ names_data (view value.now)) }
{
    let Some(values) = value.as_array() else {
        return Ok(None);
    };
    if values.len() > MOST_NAMES {
        return Ok(None);
    }
    hosts_of(alloc, values.as_slice())
}

/// The names of a request.
pub fn names_at(alloc: Global, table: &Table) -> Result<Names, RequestError>
    ensures { Answers RequestError.Memory
        (field Field.Dns names_data (get_member (codes "dns") (table_view table.now))) result }
{
    let Some(value) = value_at(table, "dns") else {
        return Err(RequestError::Missing(Field::Dns));
    };
    names_of(alloc, value)?.ok_or(RequestError::BadValue(Field::Dns))
}

// A text of 1 to 64 bytes.
#[tactic(auto, unfolding(crate::specs::Files::common_name_data))]
fn common_name_of(alloc: Global, value: &Value) -> Result<Option<Bytes>, Memory>
    ensures value { IfOk result (λ o. o ≡ common_name_data (view value.now)) }
    ensures short { IfOk result (λ o. IfSome o IsCommonName) }
{
    match value.as_str() {
        Some(text) if !text.is_empty() && text.len() <= 64 => {
            Ok(Some(Bytes::copy_of(alloc, text.as_bytes())?))
        }
        _ => Ok(None),
    }
}

/// The common name, which may be absent.
pub fn common_name_at(alloc: Global, table: &Table) -> Result<Option<Bytes>, RequestError>
    ensures value { Answers RequestError.Memory
        (field_or_none Field.CommonName common_name_data
        (get_member (codes "common_name") (table_view table.now))) result }
    ensures short { IfOk result (λ o. IfSome o IsCommonName) }
{
    let Some(value) = value_at(table, "common_name") else {
        return Ok(None);
    };
    match common_name_of(alloc, value)? {
        Some(name) => Ok(Some(name)),
        None => Err(RequestError::BadValue(Field::CommonName)),
    }
}

// A public key, in base64.
#[tactic(auto, unfolding(crate::specs::Files::public_key_data))]
fn key_of(alloc: Global, value: &Value) -> Result<Option<Bytes>, Memory>
    ensures value { IfOk result (λ o. o ≡ public_key_data (view value.now)) }
    ensures key { IfOk result (λ o. IfSome o IsPublicKey) }
{
    match bytes_of(alloc, value)? {
        Some(key) if is_public_key(key.as_slice()) => Ok(Some(key)),
        _ => Ok(None),
    }
}

/// The public key of a request.
pub fn key_at(alloc: Global, table: &Table) -> Result<Bytes, RequestError>
    ensures value { Answers RequestError.Memory
        (field Field.PublicKey public_key_data (get_member (codes "key") (table_view table.now)))
        result }
    ensures key { IfOk result IsPublicKey }
{
    let Some(value) = value_at(table, "key") else {
        return Err(RequestError::Missing(Field::PublicKey));
    };
    key_of(alloc, value)?.ok_or(RequestError::BadValue(Field::PublicKey))
}
