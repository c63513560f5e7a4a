//! Disks, and journals that are begun and read, for the cases of this crate.

use disk_core::{Disk, MemDisk};
use journal_core::{
    AppendError, Journal, MAX_BODY, OpenError, Opening, Refused, StartError, start,
};
use mtc_io::{Bytes, Memory};
use std::alloc::Global;

/// How a reading ends.
pub(crate) type End = Result<(), OpenError>;

/// The records of a file, each after its length, and how the reading ends; none where it ends
/// otherwise when it is asked again.
pub(crate) type Reading = Option<(Bytes, End)>;

pub(crate) fn empty(alloc: Global, failing: &[u64]) -> Result<MemDisk, Memory> {
    Ok(MemDisk::new(alloc, Vec::from_slice(alloc, failing)?))
}

/// A disk that holds these bytes, of which these calls fail.
pub(crate) fn disk(alloc: Global, bytes: &[u8], failing: &[u64]) -> Result<MemDisk, Memory> {
    disk_of(alloc, Bytes::copy_of(alloc, bytes)?, failing)
}

pub(crate) fn disk_of(alloc: Global, bytes: Bytes, failing: &[u64]) -> Result<MemDisk, Memory> {
    Ok(MemDisk::over(alloc, bytes, Vec::from_slice(alloc, failing)?))
}

/// A record after others, with its length before it.
pub(crate) fn add(records: &mut Bytes, body: &[u8]) -> Result<(), Memory> {
    let size = body.len().min(MAX_BODY) as u32;
    records.append_both(&size.to_be_bytes(), body)
}

/// A journal of one record.
pub(crate) fn begun<D: Disk>(
    alloc: Global,
    disk: D,
    first: &[u8],
) -> Result<Journal<D>, Refused<D, StartError>> {
    if first.is_empty() || first.len() > MAX_BODY {
        return Err(Refused {
            disk,
            why: StartError::Memory,
        });
    }
    start(alloc, disk, first)
}

/// Adds a record, where its length is allowed.
pub(crate) fn append<D: Disk>(journal: &mut Journal<D>, body: &[u8]) -> Result<(), AppendError> {
    if body.is_empty() || body.len() > MAX_BODY {
        return Err(AppendError::Full);
    }
    journal.append(body)
}

// One step, which appends the body that it finds; or how the reading ends.
fn step<D: Disk>(opening: &mut Opening<D>, found: &mut Bytes) -> Result<Option<End>, Memory> {
    match opening.next() {
        Ok(Some(body)) => {
            add(found, body)?;
            Ok(None)
        }
        Ok(None) => Ok(Some(Ok(()))),
        Err(why) => Ok(Some(Err(why))),
    }
}

// Whether so many records were read, and the reading ends so when it is asked again. In place of a
// record's commit byte and length in the file, `found` has a length of four bytes.
fn is_ended<D: Disk>(
    opening: &mut Opening<D>,
    found: &mut Bytes,
    count: u64,
    end: End,
) -> Result<bool, Memory> {
    let again = step(opening, found)?;
    let following = (found.len() as u64)
        .saturating_add(count)
        .saturating_add(16);
    Ok(again == Some(end) && opening.read_count() == count && opening.place() == following)
}

// How the reading of fewer than a thousand records ends.
fn read_on<D: Disk>(opening: &mut Opening<D>, found: &mut Bytes) -> Result<Option<End>, Memory> {
    for count in 0..1000 {
        if let Some(end) = step(opening, found)? {
            return Ok(if is_ended(opening, found, count, end)? {
                Some(end)
            } else {
                None
            });
        }
    }
    Ok(None)
}

fn read_whole<D: Disk + Drop>(alloc: Global, mut opening: Opening<D>) -> Result<Reading, Memory> {
    let mut found = Bytes::new(alloc);
    match read_on(&mut opening, &mut found)? {
        Some(end) => Ok(Some((found, end))),
        None => Ok(None),
    }
}

/// What is read of a file.
pub(crate) fn read_all<D: Disk + Drop>(alloc: Global, disk: D) -> Result<Reading, Memory> {
    match Opening::begin(alloc, disk) {
        Ok(opening) => read_whole(alloc, opening),
        Err(Refused { why, .. }) => Ok(Some((Bytes::new(alloc), Err(why)))),
    }
}

/// Whether what was read are these records, and the reading ends so.
pub(crate) fn is_read(reading: &Reading, records: &[u8], end: End) -> bool {
    match reading {
        Some((found, ended)) => found.as_slice() == records && *ended == end,
        None => false,
    }
}

/// The journal in a file of fewer than a thousand records.
pub(crate) fn opened<D: Disk + Drop>(alloc: Global, disk: D) -> Option<Journal<D>> {
    let mut opening = Opening::begin(alloc, disk).ok()?;
    for _ in 0..1000 {
        match opening.next() {
            Ok(Some(_)) => {}
            Ok(None) => return Some(opening.ready()),
            Err(_) => return None,
        }
    }
    None
}
