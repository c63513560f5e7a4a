//! Entries that name the algorithm of their key.

use crate::entries::{ENTRY, KEY, made_of_certificate};
use der_core::{CertError, DerError};
use log_entry::{Entry, EntryError, Form, key_matches, key_matches_in, read_entry};
use mtc_io::Memory;
use std::alloc::Global;
use std::test::Fail;
use tree_core::Sha;

// The AlgorithmIdentifier of Ed25519.
const ED25519: [u8; 7] = [0x30, 0x05, 0x06, 0x03, 0x2B, 0x65, 0x70];

// Its hash as a leaf, of the entry of 138 bytes.
const LEAF_HASH: [u8; 32] = [
    0x12, 0x77, 0x55, 0xB8, 0xF2, 0x05, 0x5A, 0xE8, 0xE4, 0xDF, 0x80, 0x84, 0x09, 0x87, 0xDB, 0x57,
    0xD9, 0x43, 0xC9, 0x55, 0x20, 0xBA, 0x1A, 0xFC, 0x1A, 0xD5, 0xD1, 0x8F, 0x21, 0x23, 0x95, 0xB8,
];

// The entry with these bytes between the subject and the hash of the key.
fn with_bytes(alloc: Global, bytes: &[&[u8]]) -> Result<Vec<u8>, Memory> {
    let mut entry = Vec::from_slice(alloc, &ENTRY[..68])?;
    for piece in bytes {
        entry.extend_from_slice(piece)?;
    }
    entry.extend_from_slice(&ENTRY[68..])?;
    Ok(entry)
}

fn named(alloc: Global) -> Result<Vec<u8>, Memory> {
    with_bytes(alloc, &[&ED25519])
}

// The algorithm that is read.
fn algorithm_of(entry: &[u8]) -> Option<&[u8]> {
    match read_entry(entry) {
        Ok(Entry::Tbs(tbs)) => tbs.algorithm,
        _ => None,
    }
}

// What is reported of the entry with these bytes there.
fn fault_between(alloc: Global, bytes: &[&[u8]]) -> Result<Option<DerError>, Memory> {
    let entry = with_bytes(alloc, bytes)?;
    match read_entry(entry.as_slice()) {
        Err(EntryError::Body(CertError::Der(fault))) => Ok(Some(fault)),
        _ => Ok(None),
    }
}

#[test]
fn the_form_is_two_from_an_index_on(rt: HostRuntime) {
    assert!(rt; Form::at(None, 7) == Form::One);
    assert!(rt; Form::at(Some(2), 1) == Form::One);
    assert!(rt; Form::at(Some(2), 2) == Form::Two);
    assert!(rt; Form::at(Some(2), 3) == Form::Two);
}

#[test]
fn an_entry_of_form_two_names_the_algorithm(rt: HostRuntime) -> Result<(), Fail> {
    let (entry, hash) = made_of_certificate(rt.alloc(), Form::Two)?;
    assert!(rt; entry.as_slice() == named(rt.alloc())?.as_slice());
    assert!(rt; entry.as_slice().len() == 138);
    assert!(rt; hash == LEAF_HASH);
    assert!(rt; algorithm_of(entry.as_slice()) == Some(ED25519.as_slice()));
    Ok(())
}

#[test]
fn its_key_begins_with_that_algorithm(rt: HostRuntime) -> Result<(), Fail> {
    let entry = named(rt.alloc())?;
    let other = with_bytes(rt.alloc(), &[&[0x30, 0x05, 0x06, 0x03, 0x2B, 0x65, 0x71]])?;
    assert!(rt; key_matches::<Sha>(entry.as_slice(), &KEY));
    assert!(rt; !key_matches::<Sha>(other.as_slice(), &KEY));
    assert!(rt; key_matches_in::<Sha>(entry.as_slice(), &KEY, Form::Two));
    assert!(rt; !key_matches_in::<Sha>(entry.as_slice(), &KEY, Form::One));
    assert!(rt; key_matches_in::<Sha>(&ENTRY, &KEY, Form::One));
    assert!(rt; !key_matches_in::<Sha>(&ENTRY, &KEY, Form::Two));
    Ok(())
}

// An algorithm may have one value after its OID: its parameters.
#[test]
fn an_algorithm_may_have_parameters(rt: HostRuntime) -> Result<(), Fail> {
    let null = [0x30, 0x07, 0x06, 0x03, 0x2B, 0x65, 0x70, 0x05, 0x00];
    let entry = with_bytes(rt.alloc(), &[&null])?;
    assert!(rt; algorithm_of(entry.as_slice()) == Some(null.as_slice()));
    assert!(rt; !key_matches::<Sha>(entry.as_slice(), &KEY));
    Ok(())
}

#[test]
fn a_bad_algorithm_is_reported(rt: HostRuntime) -> Result<(), Fail> {
    let two = [
        0x30, 0x09, 0x06, 0x03, 0x2B, 0x65, 0x70, 0x05, 0x00, 0x05, 0x00,
    ];
    let bad = [0x30, 0x05, 0x06, 0x03, 0x2B, 0x65, 0x80];
    assert!(rt; fault_between(rt.alloc(), &[&bad])? == Some(DerError::BadOid(70)));
    assert!(rt; fault_between(rt.alloc(), &[&ED25519, &ED25519])? == Some(DerError::WrongTag(75)));
    assert!(rt; fault_between(rt.alloc(), &[&two])? == Some(DerError::Trailing(77)));
    assert!(rt; fault_between(rt.alloc(), &[&[0x30, 0x00]])? == Some(DerError::WrongTag(70)));
    Ok(())
}
