//! The judgement of a relying party as a C library, for programs in any language that calls C.
//!
//! The header `mtc.h` declares these functions, says what each answers and names the numbers. A
//! slice is passed as a pointer and a length. The library keeps nothing between two calls, so
//! threads may call it at once. It takes memory only to read a store, by the C library's `malloc`,
//! and frees it before it answers.
#![tactic(auto)]

ghost use Rattle.std.specs.Prelude.{◌≡◌, ◌<◌, ◌≤◌, length};
ghost use Rattle.mtc_c.specs.Names.{field_name, refusal_name};
ghost use Rattle.mtc_c.specs.Pieces.{IsPutInBuffer, entry_hash_in, name_in, public_key_in};
ghost use Rattle.mtc_c.specs.Sizes.{most_cert_bytes};
ghost use Rattle.mtc_c.specs.Verdicts.{IsVerdict, too_long};

mod codes;
mod names;
mod pieces;
mod size;
mod status;
mod verdict;

use crate::names::{field_name, refusal_name};
use crate::pieces::{copy_out, entry_hash_of, name_of, public_key_of};
use crate::verdict::verdict_on;
use std::alloc::Global;
use tree_core::{Sha, TreeHash};
pub use verdict::Verdict;

const ABI: u32 = 1;

/// The number of this interface: `MTC_ABI` of the header that declares it. It changes with a struct
/// or a parameter and with what a number means, and not where calls or refusals are added.
#[unsafe(no_mangle)]
pub extern "C" fn mtc_abi() -> u32
    ensures { result ≡ 1 }
{
    ABI
}

/// Judges a certificate (DER) by a store file (TOML) at a time, in seconds since
/// 1970-01-01T00:00:00Z, under SHA-256, and answers the status of the verdict that it writes. A
/// certificate of more than 57,344 bytes is too long, and is never read.
#[unsafe(no_mangle)]
pub extern "C" fn mtc_judge(
    alloc: Global,
    cert: &[u8],
    store: &[u8],
    now: i64,
    verdict: &mut Verdict,
) -> u32
    ensures long { most_cert_bytes < length cert.now → verdict.new ≡ too_long }
    ensures judged { length cert.now ≤ most_cert_bytes
        → IsVerdict ⟦<Sha as TreeHash>⟧.hash cert.now store.now now verdict.new }
    ensures status { result ≡ verdict.new.status }
{
    *verdict = verdict_on(alloc, cert, store, now);
    verdict.status
}

/// Writes the SubjectPublicKeyInfo of a certificate (RFC 5280, section 4.1) into a buffer, and its
/// length. The bytes are to be those of a certificate that [`mtc_judge`] accepted.
#[unsafe(no_mangle)]
pub extern "C" fn mtc_public_key(cert: &[u8], out: &mut [u8], length: &mut u64) -> u32
    ensures { IsPutInBuffer (public_key_in cert.now) out.old out.new length.new result }
{
    match public_key_of(cert) {
        Ok(key) => copy_out(key, out, length),
        Err(status) => nothing(status, length),
    }
}

/// Writes a dNSName of a certificate (RFC 5280, section 4.2.1.6) into a buffer, and its length.
/// The first name has the number 0. The bytes are to be those of a certificate that [`mtc_judge`]
/// accepted.
#[unsafe(no_mangle)]
pub extern "C" fn mtc_dns_name(cert: &[u8], number: u64, out: &mut [u8], length: &mut u64) -> u32
    ensures { IsPutInBuffer (name_in cert.now number) out.old out.new length.new result }
{
    match name_of(cert, number) {
        Ok(name) => copy_out(name, out, length),
        Err(status) => nothing(status, length),
    }
}

/// Writes the hash that the log has for the entry of a certificate (RFC 9162, section 2.1) into a
/// buffer, 32 bytes, and its length. The entry has form 1: the log was not switched before it.
#[unsafe(no_mangle)]
pub extern "C" fn mtc_entry_hash(cert: &[u8], out: &mut [u8], length: &mut u64) -> u32
    ensures { IsPutInBuffer (entry_hash_in ⟦<Sha as TreeHash>⟧.hash 1 cert.now) out.old out.new
        length.new result }
{
    put_entry_hash(cert, 1, out, length)
}

/// The same in a form: it is 2 from the store's `algorithm_from` on, and else 1.
#[unsafe(no_mangle)]
pub extern "C" fn mtc_entry_hash_in(cert: &[u8], form: u32, out: &mut [u8], length: &mut u64) -> u32
    ensures { IsPutInBuffer (entry_hash_in ⟦<Sha as TreeHash>⟧.hash form cert.now) out.old out.new
        length.new result }
{
    put_entry_hash(cert, form, out, length)
}

/// Writes the name of a refusal into a buffer, as `mtc verify` prints it, and its length. 4 where
/// the number is that of no refusal.
#[unsafe(no_mangle)]
pub extern "C" fn mtc_refusal_name(refusal: u32, out: &mut [u8], length: &mut u64) -> u32
    ensures exact { IsPutInBuffer (refusal_name refusal) out.old out.new length.new result }
    ensures short { length.new ≤ 32 }
{
    match refusal_name(refusal) {
        Ok(name) => copy_out(name, out, length),
        Err(status) => nothing(status, length),
    }
}

/// Writes the name of a field of a store file into a buffer, as `mtc verify` prints it, and its
/// length. 4 where the number is that of no field.
#[unsafe(no_mangle)]
pub extern "C" fn mtc_field_name(field: u64, out: &mut [u8], length: &mut u64) -> u32
    ensures exact { IsPutInBuffer (field_name field) out.old out.new length.new result }
    ensures short { length.new ≤ 32 }
{
    match field_name(field) {
        Ok(name) => copy_out(name, out, length),
        Err(status) => nothing(status, length),
    }
}

// Writes the hash of the entry in the form with this number.
fn put_entry_hash(cert: &[u8], form: u32, out: &mut [u8], length: &mut u64) -> u32
    ensures { IsPutInBuffer (entry_hash_in ⟦<Sha as TreeHash>⟧.hash form cert.now) out.old out.new
        length.new result }
{
    match entry_hash_of::<Sha>(cert, form) {
        Ok(hash) => copy_out(&hash, out, length),
        Err(status) => nothing(status, length),
    }
}

// There is nothing to write: the length is 0.
fn nothing(status: u32, length: &mut u64) -> u32
    ensures same { result ≡ status }
    ensures none { length.new ≡ 0 }
{
    *length = 0;
    status
}
