//! Values in the forms that files use.

ghost use Rattle.std.specs.Prelude.{◌≡◌, Ok, IfOk, IfErr, IfSome};
ghost use Rattle.base64.specs.Engines.{standard};
ghost use Rattle.base64.specs.GeneralPurpose.{decode_of, IsDecodeFailure};
ghost use Rattle.byte_formats.specs.Offsets.{IsBytes};
ghost use Rattle.toml.specs.View.{view};
ghost use Rattle.toml_fields.specs.Codes.{bytes_of_base64, bytes_data, hash_data, hash_of_hex};
ghost use Rattle.toml_fields.specs.Codes.{number_data};

use base64::DecodeAllocError;
use base64::engine::general_purpose::STANDARD;
use hex::FromHex;
use mtc_io::{Bytes, Memory};
use std::alloc::Global;
use toml::Value;

/// A number that isn't negative.
pub fn number_of(value: &Value) -> Option<u64>
    ensures { result ≡ number_data (view value.now) }
{
    match value.as_integer() {
        Some(number) if number >= 0 => Some(number as u64),
        _ => None,
    }
}

// 64 hexadecimal digits, in either case.
#[tactic(auto, unfolding(crate::specs::Codes::hash_of_hex))]
fn read_hash(text: &str) -> Option<[u8; 32]>
    ensures { result ≡ hash_of_hex text.now }
{
    <[u8; 32] as FromHex>::from_hex(text).ok()
}

/// The hash that 64 hexadecimal digits write, in either case.
#[tactic(auto, unfolding(crate::specs::Codes::hash_data))]
pub fn hash_of(value: &Value) -> Option<[u8; 32]>
    ensures { result ≡ hash_data (view value.now) }
{
    match value.as_str() {
        Some(text) => read_hash(text),
        None => None,
    }
}

// The standard alphabet, padded.
fn decode(alloc: Global, text: &[u8]) -> Result<Vec<u8>, DecodeAllocError>
    ensures ok { IfOk result (λ bytes. decode_of standard text.now ≡ Ok bytes.items) }
    ensures err { IfErr result (IsDecodeFailure standard text.now) }
    ensures bytes { IfOk result (λ bytes. IsBytes bytes.items) }
{
    STANDARD.decode(alloc, text)
}

// The bytes that a text in base64 writes.
#[tactic(auto, unfolding(crate::specs::Codes::bytes_of_base64))]
fn read_base64(alloc: Global, text: &str) -> Result<Option<Bytes>, Memory>
    ensures value { IfOk result (λ o. o ≡ bytes_of_base64 text.now) }
    ensures bytes { IfOk result (λ o. IfSome o IsBytes) }
{
    match decode(alloc, text.as_bytes()) {
        Ok(bytes) => Ok(Some(Bytes::from_vec(bytes))),
        Err(DecodeAllocError::OutOfMemory) => Err(Memory),
        Err(DecodeAllocError::DecodeError(_)) => Ok(None),
    }
}

/// The bytes that a text in base64 writes, in the standard alphabet and padded. The call refuses
/// only if memory runs out.
#[tactic(auto, unfolding(crate::specs::Codes::bytes_data))]
pub fn bytes_of(alloc: Global, value: &Value) -> Result<Option<Bytes>, Memory>
    ensures value { IfOk result (λ o. o ≡ bytes_data (view value.now)) }
    ensures bytes { IfOk result (λ o. IfSome o IsBytes) }
{
    match value.as_str() {
        Some(text) => read_base64(alloc, text),
        None => Ok(None),
    }
}
