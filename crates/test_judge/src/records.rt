//! Exports of a cosigner by words, for the log with the id 32473.1.
//!
//! A helper answers none where a word isn't of its form, or memory is refused.

use crate::lists::{cut, put_text, toy};
use mtc_io::{Bytes, Memory};
use std::alloc::Global;

/// A public key of one level, of height 5 and width 4.
pub const PUBLIC: [u8; 60] = [
    0x00, 0x00, 0x00, 0x01, 0x00, 0x00, 0x00, 0x05, 0x00, 0x00, 0x00, 0x03, 0x00, 0x00, 0x00, 0x00,
    0x00, 0x00, 0x00, 0x00, 0x00, 0x00, 0x00, 0x00, 0x00, 0x00, 0x00, 0x00, 0x00, 0x00, 0x00, 0x00,
    0x00, 0x00, 0x00, 0x00, 0x00, 0x00, 0x00, 0x00, 0x00, 0x00, 0x00, 0x00, 0x00, 0x00, 0x00, 0x00,
    0x00, 0x00, 0x00, 0x00, 0x00, 0x00, 0x00, 0x00, 0x00, 0x00, 0x00, 0x00,
];

// The id 32473.NUMBER after its length.
fn id_of(number: u8) -> [u8; 5] {
    [4, 0x81, 0xFD, 0x59, number]
}

// Appends the number before the first colon to the bytes, in eight of them; the rest of the word.
fn put_number<'a>(bytes: &mut Bytes, word: &'a str) -> Option<&'a str> {
    let (number, rest) = cut(word);
    bytes
        .append(&number.parse::<u64>().ok()?.to_be_bytes())
        .ok()?;
    Some(rest)
}

// Appends the hash with this first byte to the bytes.
fn put_hash(bytes: &mut Bytes, sum: &str) -> Option<()> {
    bytes.append(&toy(sum.parse::<u8>().ok()?)).ok()
}

// Appends the hashes with these first bytes to the bytes.
fn put_hashes(bytes: &mut Bytes, sums: &str) -> Option<()> {
    if !sums.is_empty() {
        for sum in sums.split(':') {
            put_hash(bytes, sum)?;
        }
    }
    Some(())
}

// The same in a vector.
fn put_proof(alloc: Global, bytes: &mut Bytes, sums: &str) -> Option<()> {
    let mut hashes = Bytes::new(alloc);
    put_hashes(&mut hashes, sums)?;
    put_text(bytes, hashes.as_slice()).ok()
}

// Appends what a Sign has before its end to the bytes; the rest of the word.
fn put_start<'a>(bytes: &mut Bytes, word: &'a str) -> Option<&'a str> {
    let (index, rest) = cut(word);
    bytes
        .append(&index.parse::<u32>().ok()?.to_be_bytes())
        .ok()?;
    put_number(bytes, rest)
}

// Appends the tag of a step and what a Sign has before its end to the bytes; the rest of the word.
fn put_head<'a>(bytes: &mut Bytes, word: &'a str) -> Option<&'a str> {
    let (kind, fields) = cut(word);
    if kind == "a" {
        bytes.append(&[0x12]).ok()?;
        return Some(fields);
    }
    bytes.append(&[0x13]).ok()?;
    put_start(bytes, fields)
}

// Appends the body of a Child to the bytes, by its number and the typecode of its tree.
fn put_child(bytes: &mut Bytes, fields: &str) -> Option<()> {
    let (number, typecode) = cut(fields);
    bytes.append(&[0x14]).ok()?;
    bytes
        .append(&number.parse::<u32>().ok()?.to_be_bytes())
        .ok()?;
    bytes
        .append(&typecode.parse::<u32>().ok()?.to_be_bytes())
        .ok()
}

// Appends the body of the record of a step to the bytes: `a:SIZE:ROOT` and the hashes of the proof,
// or `s:INDEX:START:END:HASH` and these, or `c:NUMBER:TYPECODE`.
fn put_body(alloc: Global, bytes: &mut Bytes, word: &str) -> Option<()> {
    if let Some(fields) = word.strip_prefix("c:") {
        return put_child(bytes, fields);
    }
    let rest = put_head(bytes, word)?;
    let (sum, hashes) = cut(put_number(bytes, rest)?);
    put_hash(bytes, sum)?;
    put_proof(alloc, bytes, hashes)
}

/// Appends a record with this body to the bytes.
pub fn put_record(bytes: &mut Bytes, body: &[u8]) -> Result<(), Memory> {
    bytes.append(&[0, 0])?;
    put_text(bytes, body)
}

// Appends the record of a step to the bytes.
fn put_step(alloc: Global, bytes: &mut Bytes, word: &str) -> Option<()> {
    let mut body = Bytes::new(alloc);
    put_body(alloc, &mut body, word)?;
    put_record(bytes, body.as_slice()).ok()
}

// Appends the records of these steps to the bytes; `-` is none.
fn put_steps(alloc: Global, bytes: &mut Bytes, steps: &str) -> Option<()> {
    for word in steps.split(' ') {
        if word != "-" {
            put_step(alloc, bytes, word)?;
        }
    }
    Some(())
}

// Appends what stands before the records to the bytes.
fn put_prefix(bytes: &mut Bytes, id: u8, log: u8, public: &[u8; 60]) -> Result<(), Memory> {
    bytes.append(&id_of(id))?;
    bytes.append(&id_of(log))?;
    put_text(bytes, public)
}

/// The export of the cosigner 32473.ID with this key and these steps; `-` is none.
pub fn export_of(alloc: Global, id: u8, log: u8, public: &[u8; 60], steps: &str) -> Option<Bytes> {
    let mut bytes = Bytes::new(alloc);
    put_prefix(&mut bytes, id, log, public).ok()?;
    put_steps(alloc, &mut bytes, steps)?;
    Some(bytes)
}
