//! Writing entries.

ghost use Rattle.std.specs.Prelude.{◌≡◌, [], IfOk, OnOk, Ok, Some};
ghost use Rattle.cert_fields.specs.Views.{parts};
ghost use Rattle.log_entry.specs.Entries.{tbs_text, IsTbs};
ghost use Rattle.log_entry.specs.EntryOf.{entry_of};
ghost use Rattle.log_entry.specs.Reading.{entry_in};
ghost use Rattle.log_entry.specs.Views.{tbs_parts, given_entry};

use crate::entry::{EntryParts, Form, TbsEntry};
use crate::hashing::{HASH_HEAD, HEAD, algorithm_for, key_hash};
use cert_fields::Cert;
use cert_time::put_validity;
use mtc_io::{Bytes, Memory};
use std::alloc::Global;
use tree_core::TreeHash;

// The entry with these fields.
fn written(alloc: Global, tbs: &TbsEntry) -> Result<Bytes, Memory>
    ensures { IfOk result (λ bytes. bytes ≡ tbs_text (tbs_parts tbs.now)) }
{
    let mut out = Bytes::new(alloc);
    put_fields(tbs, &mut out)?;
    Ok(out)
}

// Puts the entry with these fields into no bytes.
#[tactic(auto, unfolding(crate::specs::Entries::tbs_text))]
fn put_fields(tbs: &TbsEntry, out: &mut Bytes) -> Result<(), Memory>
    requires empty { out.old ≡ [] }
    ensures { OnOk result (out.new ≡ tbs_text (tbs_parts tbs.now)) }
{
    out.append(&HEAD)?;
    out.append(tbs.issuer)?;
    out.append(tbs.validity_der)?;
    out.append(tbs.subject)?;
    out.append(tbs.algorithm_bytes())?;
    out.append(&HASH_HEAD)?;
    out.append(tbs.key_hash)?;
    out.append(tbs.extensions)?;
    Ok(())
}

/// The entry in this form from which a certificate was made: its version, issuer, validity and
/// subject, for form two the algorithm of its public key, the hash of that key, and its extensions.
/// The call refuses only if memory runs out.
#[tactic(auto, unfolding(crate::specs::EntryOf::entry_of))]
pub fn entry_of<H: TreeHash>(alloc: Global, cert: &Cert, form: Form) -> Result<Bytes, Memory>
    ensures { IfOk result (λ bytes. bytes ≡ entry_of H.hash form (parts cert.now)) }
{
    let key = key_hash::<H>(cert.spki);
    written(
        alloc,
        &TbsEntry {
            issuer: cert.issuer,
            validity: cert.validity,
            validity_der: cert.validity_der,
            subject: cert.subject,
            algorithm: algorithm_for(form, cert.spki),
            key_hash: key.as_slice(),
            extensions: cert.extensions,
        },
    )
}

/// Writes an entry of type 1. The call refuses only if memory runs out.
///
/// The parts are put together as they are. If issuer, subject, algorithm and extensions are
/// elements in the grammar of their fields, [`read_entry`](crate::read_entry) reads them again from
/// what is written, and the entry matches the key whose hash, and whose algorithm in form two, was
/// given.
pub fn write_entry(alloc: Global, parts: &EntryParts) -> Result<Bytes, Memory>
    ensures exact { IfOk result (λ bytes. bytes ≡ tbs_text (given_entry parts.now)) }
    ensures read { IsTbs (given_entry parts.now) → IfOk result
        (λ bytes. entry_in bytes ≡ Ok (Some (given_entry parts.now))) }
{
    with_validity(alloc, parts)
}

// The entry, with its validity written out.
fn with_validity(alloc: Global, parts: &EntryParts) -> Result<Bytes, Memory>
    ensures { IfOk result (λ bytes. bytes ≡ tbs_text (given_entry parts.now)) }
{
    let mut validity = Bytes::new(alloc);
    put_validity(&parts.validity, &mut validity)?;
    written(
        alloc,
        &TbsEntry {
            issuer: parts.issuer,
            validity: parts.validity,
            validity_der: validity.as_slice(),
            subject: parts.subject,
            algorithm: parts.algorithm,
            key_hash: parts.key_hash.as_slice(),
            extensions: parts.extensions,
        },
    )
}
