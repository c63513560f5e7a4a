//! The export of a cosigner that has signed with each of its one-time keys, under SHA-256.

use crate::lists::put_text;
use crate::records::{PUBLIC, export_of, put_record};
use cosigner_core::read_export;
use mtc_io::{Bytes, Memory};
use quarrel_core::{Quarrel, quarrel};
use std::alloc::Global;
use tree_core::{Sha, leaf, pair};

// How many one-time keys a key of height 10 has.
const KEYS: u32 = 1024;

// Appends the record of an Advance to two entries to the bytes.
fn put_advance(alloc: Global, bytes: &mut Bytes, root: &[u8; 32]) -> Result<(), Memory> {
    let mut body = Bytes::new(alloc);
    body.append(&[0x12])?;
    body.append(&2u64.to_be_bytes())?;
    body.append(root)?;
    put_text(&mut body, &[])?;
    put_record(bytes, body.as_slice())
}

// Appends the record of a Sign of the first of them to the bytes.
fn put_sign(
    alloc: Global,
    bytes: &mut Bytes,
    index: u32,
    node: &[u8; 32],
    sibling: &[u8; 32],
) -> Result<(), Memory> {
    let mut body = Bytes::new(alloc);
    body.append(&[0x13])?;
    body.append(&index.to_be_bytes())?;
    body.append(&0u64.to_be_bytes())?;
    body.append(&1u64.to_be_bytes())?;
    body.append(node)?;
    put_text(&mut body, sibling)?;
    put_record(bytes, body.as_slice())
}

// The export of a cosigner that has signed the first of two entries with each key.
fn export_of_all(alloc: Global) -> Option<Bytes> {
    let mut public = PUBLIC;
    public[7] = 6;
    let (node, sibling) = (leaf::<Sha>(&[0]), leaf::<Sha>(&[1]));
    let mut bytes = export_of(alloc, 2, 1, &public, "-")?;
    put_advance(alloc, &mut bytes, &pair::<Sha>(&node, &sibling)).ok()?;
    for index in 0..KEYS {
        put_sign(alloc, &mut bytes, index, &node, &sibling).ok()?;
    }
    Some(bytes)
}

// How many steps the export has, if its signatures agree.
fn count_agreeing(alloc: Global, export: &[u8]) -> Option<usize> {
    let kept = read_export::<Sha>(alloc, export).ok()??;
    match quarrel::<Sha>(alloc, &kept) {
        Ok(Quarrel::Agree) => Some(kept.steps.as_slice().len()),
        _ => None,
    }
}

// The same of the export of a cosigner that has signed with each key.
fn count_of_all(alloc: Global) -> Option<usize> {
    let bytes = export_of_all(alloc)?;
    count_agreeing(alloc, bytes.as_slice())
}

#[test]
fn signatures_by_all_keys_agree(rt: HostRuntime) {
    let count = count_of_all(rt.alloc());
    assert!(rt; count == Some(1025), "{count:?}");
}
