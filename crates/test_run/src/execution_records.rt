//! The records of journals, compared with those of a party's state, and what is printed of them.

use crate::difference::Difference;
use crate::execution_party::Party;
use disk_core::MemDisk;
use journal_core::Opening;
use mtc_io::Bytes;
use party_history::PartyState;
use std::alloc::Global;

pub const ENTRY: u8 = 2;

pub const LANDMARK: u8 = 3;

pub const TILES: u8 = 4;

pub const ADVANCE: u8 = 0x12;

pub const SIGN: u8 = 0x13;

// What a signature of the cosigner begins with, up to the number of the one-time key.
const SIGNATURE: [u8; 11] = [4, 0x81, 0xFD, 0x59, 2, 0x21, 0xF0, 0, 0, 0, 0];

fn opened(alloc: Global, bytes: &[u8]) -> Result<Opening<MemDisk>, Difference> {
    let bytes = Bytes::copy_of(alloc, bytes)?;
    match Opening::begin(alloc, MemDisk::over(alloc, bytes, Vec::new(alloc))) {
        Ok(opening) => Ok(opening),
        Err(_) => Err(Difference::Journal),
    }
}

// Appends the body of the next record to the others: whether there is one.
fn read_next(
    alloc: Global,
    opening: &mut Opening<MemDisk>,
    bodies: &mut Vec<Bytes>,
) -> Result<bool, Difference> {
    match opening.next() {
        Ok(Some(body)) => {
            bodies.push(Bytes::copy_of(alloc, body)?)?;
            Ok(true)
        }
        Ok(None) => Ok(false),
        Err(_) => Err(Difference::Journal),
    }
}

fn read_on(
    alloc: Global,
    opening: &mut Opening<MemDisk>,
    bodies: &mut Vec<Bytes>,
) -> Result<(), Difference> {
    for _ in 0..1000 {
        if !read_next(alloc, opening, bodies)? {
            return Ok(());
        }
    }
    Err(Difference::Journal)
}

// The bodies of the records that a file is read as.
fn bodies_in(alloc: Global, bytes: &[u8]) -> Result<Vec<Bytes>, Difference> {
    let mut opening = opened(alloc, bytes)?;
    let mut bodies = Vec::new(alloc);
    read_on(alloc, &mut opening, &mut bodies)?;
    Ok(bodies)
}

// Whether these bodies are the durable ones with the pending one, or without it. None if they are
// others.
fn matched(bodies: &[Bytes], state: &PartyState) -> Option<bool> {
    let durable = state.durable.as_slice();
    for (found, wanted) in bodies.iter().zip(durable) {
        if found.as_slice() != wanted.as_slice() {
            return None;
        }
    }
    if bodies.len() == durable.len() {
        return Some(false);
    }
    if bodies.len() != durable.len().saturating_add(1) {
        return None;
    }
    match (&state.pending, bodies.last()) {
        (Some(pending), Some(last)) if pending.as_slice() == last.as_slice() => Some(true),
        _ => None,
    }
}

/// Whether a file is the journal of a party in this state with its pending record, or without it.
/// None where it is the journal of another state.
pub fn kept_in(
    alloc: Global,
    bytes: &[u8],
    party: Party,
    state: &PartyState,
) -> Result<Option<bool>, Difference> {
    let bodies = bodies_in(alloc, bytes)?;
    match bodies.as_slice().split_first() {
        Some((first, rest)) if first.as_slice() == party.first() => Ok(matched(rest, state)),
        _ => Ok(None),
    }
}

/// How many of the records have this tag.
pub fn count(bodies: &[Bytes], tag: u8) -> u64 {
    let mut count = 0u64;
    for body in bodies {
        if body.as_slice().first() == Some(&tag) {
            count = count.saturating_add(1);
        }
    }
    count
}

// The number in the eight bytes after the tag.
fn size_in(body: &Bytes) -> u64 {
    let mut size = 0u64;
    for byte in body.as_slice().iter().skip(1).take(8) {
        size = size.wrapping_mul(256).wrapping_add(*byte as u64);
    }
    size
}

/// The size in the last record with this tag, or 0.
pub fn last_size(bodies: &[Bytes], tag: u8) -> u64 {
    let mut size = 0;
    for body in bodies {
        if body.as_slice().first() == Some(&tag) {
            size = size_in(body);
        }
    }
    size
}

/// What is printed of a record: a prefix, and the length of all.
#[derive(Drop)]
pub struct Text {
    pub prefix: Vec<u8>,
    pub length: usize,
}

// The prefix of a signature by the one-time key of this number.
fn signature(alloc: Global, number: u64) -> Result<Text, Difference> {
    let mut prefix = Vec::from_slice(alloc, &SIGNATURE)?;
    prefix.extend_from_slice(&((number & 0xFFFF_FFFF) as u32).to_be_bytes())?;
    Ok(Text {
        prefix,
        length: 8695,
    })
}

// The bytes of one line.
fn line(alloc: Global, line: &str) -> Result<Text, Difference> {
    Ok(Text {
        prefix: Vec::from_slice(alloc, line.as_bytes())?,
        length: line.len(),
    })
}

/// What is printed of the last of these records. The number of an entry, of a landmark and of a
/// one-time key says how many records of its kind there are.
pub fn text_of(alloc: Global, bodies: &[Bytes]) -> Result<Text, Difference> {
    let Some(body) = bodies.last() else {
        return Err(Difference::Printed);
    };
    let tag = body.as_slice().first().copied().unwrap_or(0);
    let (number, size) = (count(bodies, tag), size_in(body));
    match tag {
        ENTRY => line(alloc, format!(in alloc; "issued {number}\n")?.as_str()),
        LANDMARK => line(
            alloc,
            format!(in alloc; "landmark {number} {size}\n")?.as_str(),
        ),
        ADVANCE => line(alloc, format!(in alloc; "advanced {size}\n")?.as_str()),
        _ => signature(alloc, number.saturating_sub(1)),
    }
}
