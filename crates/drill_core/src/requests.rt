//! What is asked of the log: its entries.

ghost use Rattle.std.specs.Prelude.{◌≡◌, ◌∷◌, [], IfOk};
ghost use Rattle.cert_names.specs.Hosts.{IsHostName};
ghost use Rattle.drill_core.specs.Entries.{host_of, key_of, request_for};

use authority_core::{Names, Request};
use cert_fields::is_public_key;
use cert_names::is_host;
use cert_time::Validity;
use itoa::Buffer;
use mtc_io::{Bytes, Memory};
use std::alloc::Global;

/// The first time of each entry, and that at which certificates are judged: 2026-01-01.
pub(crate) const NOT_BEFORE: i64 = 1_767_225_600;

// The last time of each entry: 2026-01-08.
const NOT_AFTER: i64 = 1_767_830_400;

// A subjectPublicKeyInfo of Ed25519 without the last 8 bytes of the key (RFC 8410, section 4).
const KEY_PREFIX: [u8; 36] = [
    0x30, 0x2A, 0x30, 0x05, 0x06, 0x03, 0x2B, 0x65, 0x70, 0x03, 0x21, 0x00, 0, 0, 0, 0, 0, 0, 0, 0,
    0, 0, 0, 0, 0, 0, 0, 0, 0, 0, 0, 0, 0, 0, 0, 0,
];

// The host name of the entry at an index.
#[tactic(auto, unfolding(crate::specs::Entries::host_of))]
fn host_of(alloc: Global, index: u64) -> Result<Bytes, Memory>
    ensures { IfOk result (λ host. host ≡ host_of index) }
{
    let mut digits = Buffer::new();
    let mut host = Bytes::copy_of(alloc, b"n")?;
    host.append_both(digits.format(index).as_bytes(), b".example")?;
    Ok(host)
}

// The key to the entry at an index.
#[tactic(auto, unfolding(crate::specs::Entries::key_of))]
fn key_of(alloc: Global, index: u64) -> Result<Bytes, Memory>
    ensures { IfOk result (λ key. key ≡ key_of index) }
{
    let mut key = Bytes::new(alloc);
    key.append_both(&KEY_PREFIX, &index.to_be_bytes())?;
    Ok(key)
}

// The one name of a request.
fn names_of(alloc: Global, host: Bytes) -> Result<Names, Memory>
    requires { IsHostName host }
    ensures { IfOk result (λ names. names ≡ host ∷ []) }
{
    let mut names = Vec::new(alloc);
    names.push(host)?;
    Ok(Names::from_vec(names))
}

/// What is asked for the entry at an index.
pub(crate) fn request_for(alloc: Global, index: u64) -> Result<Request, Memory>
    ensures { IfOk result (λ request. request ≡ request_for index) }
{
    let host = host_of(alloc, index)?;
    let key = key_of(alloc, index)?;
    if !is_host(host.as_slice()) || !is_public_key(key.as_slice()) {
        return Err(Memory);
    }
    Ok(Request {
        validity: Validity {
            not_before: NOT_BEFORE,
            not_after: NOT_AFTER,
        },
        names: names_of(alloc, host)?,
        common_name: None,
        key,
    })
}
