//! The entry of the certificate of one name that a log with id 32473.1 issues, and what is reported
//! of changes to it.

use cert_fields::Cert;
use cert_time::Validity;
use der_core::{CertError, DerError};
use log_entry::{
    Entry, EntryError, EntryParts, Form, entry_hash, entry_of, key_hash, key_matches, read_entry,
    write_entry,
};
use mtc_io::{Bytes, Memory};
use std::alloc::Global;
use std::test::Fail;
use tree_core::{Sha, TreeHash};

// Issuer of log 32473.1, 2026-01-01 to 2026-01-08, no subject, the SHA-256 of an Ed25519 key of
// zeros, one critical subjectAltName with `a.example`.
pub(crate) const ENTRY: [u8; 131] = [
    0x00, 0x01, 0xA0, 0x03, 0x02, 0x01, 0x02, 0x30, 0x19, 0x31, 0x17, 0x30, 0x15, 0x06, 0x0A, 0x2B,
    0x06, 0x01, 0x04, 0x01, 0x82, 0xDA, 0x4B, 0x2F, 0x01, 0x0C, 0x07, 0x33, 0x32, 0x34, 0x37, 0x33,
    0x2E, 0x31, 0x30, 0x1E, 0x17, 0x0D, 0x32, 0x36, 0x30, 0x31, 0x30, 0x31, 0x30, 0x30, 0x30, 0x30,
    0x30, 0x30, 0x5A, 0x17, 0x0D, 0x32, 0x36, 0x30, 0x31, 0x30, 0x38, 0x30, 0x30, 0x30, 0x30, 0x30,
    0x30, 0x5A, 0x30, 0x00, 0x04, 0x20, 0x72, 0x2A, 0xBD, 0x12, 0xE9, 0x9A, 0x53, 0x67, 0xF3, 0x75,
    0xAE, 0xB9, 0x67, 0x2A, 0x8E, 0x07, 0x71, 0x2E, 0x03, 0xC2, 0xAD, 0xD1, 0x6F, 0xA8, 0xD6, 0x91,
    0x4D, 0x1C, 0xFA, 0x2E, 0xFE, 0x0C, 0xA3, 0x1B, 0x30, 0x19, 0x30, 0x17, 0x06, 0x03, 0x55, 0x1D,
    0x11, 0x01, 0x01, 0xFF, 0x04, 0x0D, 0x30, 0x0B, 0x82, 0x09, 0x61, 0x2E, 0x65, 0x78, 0x61, 0x6D,
    0x70, 0x6C, 0x65,
];

// Its hash as a leaf.
const LEAF_HASH: [u8; 32] = [
    0x7E, 0xDF, 0xD5, 0xE2, 0x31, 0x8A, 0x6D, 0xE0, 0x81, 0xFE, 0x8E, 0xE5, 0xE0, 0xA6, 0x29, 0x33,
    0x5E, 0x6F, 0x6F, 0xD8, 0x25, 0xFB, 0xE9, 0xF7, 0x11, 0x1B, 0xE6, 0xA8, 0xD2, 0x43, 0xD1, 0x61,
];

// The Ed25519 key of zeros, as a subjectPublicKeyInfo.
pub(crate) const KEY: [u8; 44] = [
    0x30, 0x2A, 0x30, 0x05, 0x06, 0x03, 0x2B, 0x65, 0x70, 0x03, 0x21, 0x00, 0x00, 0x00, 0x00, 0x00,
    0x00, 0x00, 0x00, 0x00, 0x00, 0x00, 0x00, 0x00, 0x00, 0x00, 0x00, 0x00, 0x00, 0x00, 0x00, 0x00,
    0x00, 0x00, 0x00, 0x00, 0x00, 0x00, 0x00, 0x00, 0x00, 0x00, 0x00, 0x00,
];

pub(crate) const WEEK: Validity = Validity {
    not_before: 1_767_225_600,
    not_after: 1_767_830_400,
};

// The entry with another byte at one offset.
fn changed(offset: usize, byte: u8) -> [u8; 131] {
    let mut bytes = ENTRY;
    if let Some(old) = bytes.get_mut(offset) {
        *old = byte;
    }
    bytes
}

// The fault that is reported of these bytes.
fn fault_of(bytes: &[u8]) -> Option<EntryError> {
    read_entry(bytes).err()
}

fn fields_are_parts() -> bool {
    match read_entry(&ENTRY) {
        Ok(Entry::Tbs(tbs)) => {
            tbs.issuer == &ENTRY[7..34]
                && tbs.validity == WEEK
                && tbs.validity_der == &ENTRY[34..66]
                && tbs.subject == &ENTRY[66..68]
                && tbs.algorithm.is_none()
                && tbs.key_hash == &ENTRY[70..102]
                && tbs.extensions == &ENTRY[102..]
        }
        _ => false,
    }
}

fn is_null(bytes: &[u8]) -> bool {
    matches!(read_entry(bytes), Ok(Entry::Null))
}

#[test]
fn the_fields_of_an_entry_are_parts_of_its_bytes(rt: HostRuntime) {
    assert!(rt; fields_are_parts());
    assert!(rt; is_null(&[0, 0]));
}

// The fault that is reported of the entry with another byte at one offset.
fn reported(offset: usize, byte: u8) -> Option<EntryError> {
    fault_of(&changed(offset, byte))
}

// That of the body.
fn reported_of_body(offset: usize, byte: u8) -> Option<CertError> {
    match reported(offset, byte) {
        Some(EntryError::Body(fault)) => Some(fault),
        _ => None,
    }
}

#[test]
fn changes_of_the_type_and_of_the_length_of_a_hash_have_their_faults(rt: HostRuntime) {
    assert!(rt; reported(0, 0x01) == Some(EntryError::UnknownType(257)));
    assert!(rt; reported(1, 0x02) == Some(EntryError::UnknownType(2)));
    assert!(rt; reported(1, 0x00) == Some(EntryError::NullHasBody));
    assert!(rt; reported(69, 0x1F) == Some(EntryError::BadHashLength));
}

#[test]
fn changes_of_a_body_have_their_faults(rt: HostRuntime) {
    assert!(rt; reported_of_body(2, 0x30) == Some(CertError::BadVersion));
    assert!(rt; reported_of_body(6, 0x01) == Some(CertError::BadVersion));
    assert!(rt; reported_of_body(7, 0x31) == Some(CertError::Der(DerError::WrongTag(7))));
    assert!(rt; reported_of_body(36, 0x18) == Some(CertError::BadTime));
    assert!(rt; reported_of_body(66, 0x31) == Some(CertError::Der(DerError::WrongTag(66))));
    assert!(rt; reported_of_body(68, 0x05) == Some(CertError::Der(DerError::WrongTag(68))));
    assert!(rt; reported_of_body(102, 0xA2) == Some(CertError::Der(DerError::Trailing(102))));
    assert!(rt; reported_of_body(115, 0x00) == Some(CertError::BadExtension));
}

#[test]
fn short_entries_have_their_faults(rt: HostRuntime) {
    let version = EntryError::Body(CertError::BadVersion);
    assert!(rt; fault_of(b"") == Some(EntryError::Short));
    assert!(rt; fault_of(&[0]) == Some(EntryError::Short));
    assert!(rt; fault_of(&[0, 0, 0]) == Some(EntryError::NullHasBody));
    assert!(rt; fault_of(&[0, 1]) == Some(version));
    assert!(rt; fault_of(&ENTRY[..102]) == None);
}

/// The entry in this form of the certificate with these fields, and its hash as a leaf.
pub(crate) fn made_of_certificate(alloc: Global, form: Form) -> Result<(Bytes, [u8; 32]), Memory> {
    let cert = Cert {
        serial: 1,
        issuer: &ENTRY[7..34],
        validity: WEEK,
        validity_der: &ENTRY[34..66],
        subject: &ENTRY[66..68],
        spki: &KEY,
        extensions: &ENTRY[102..],
        algorithm: &[],
        proof: &[],
    };
    Ok((
        entry_of::<Sha>(alloc, &cert, form)?,
        entry_hash::<Sha>(&cert, form),
    ))
}

fn made_of_parts(alloc: Global) -> Result<Bytes, Memory> {
    let key = key_hash::<Sha>(&KEY);
    let parts = EntryParts {
        issuer: &ENTRY[7..34],
        validity: WEEK,
        subject: &ENTRY[66..68],
        algorithm: None,
        key_hash: &key,
        extensions: &ENTRY[102..],
    };
    write_entry(alloc, &parts)
}

#[test]
fn an_entry_is_made_of_a_certificate_and_of_parts(rt: HostRuntime) -> Result<(), Fail> {
    let (entry, hash) = made_of_certificate(rt.alloc(), Form::One)?;
    assert!(rt; entry.as_slice() == ENTRY.as_slice());
    assert!(rt; hash == LEAF_HASH);
    assert!(rt; made_of_parts(rt.alloc())?.as_slice() == ENTRY.as_slice());
    Ok(())
}

fn is_matched(entry: &[u8], key: &[u8]) -> bool {
    key_matches::<Sha>(entry, key)
}

#[test]
fn a_key_matches_its_entry_alone(rt: HostRuntime) {
    assert!(rt; is_matched(&ENTRY, &KEY));
    assert!(rt; !is_matched(&changed(70, 0x73), &KEY));
    assert!(rt; !is_matched(&changed(69, 0x1F), &KEY));
    assert!(rt; !is_matched(&ENTRY, &KEY[..43]));
    assert!(rt; !is_matched(&[0, 0], &[]));
}
