//! The journals of small logs, for the cases of this crate; and disks in memory for all cases.

ghost use Rattle.std.specs.Prelude.{◌≤◌};

use disk_core::MemDisk;
use frame_pool::Pool;
use issuance_log::{Log, LogError, LogOpenError, LogRefused, LogSettings, create};
use journal_core::{OpenError, Refused, StartError};
use log_entry::{key_hash, key_matches_in};
use mtc_io::{Bytes, Memory};
use std::alloc::Global;
use tls_wire::AnchorId;
use tree_core::Sha;

// The journal of a new log with id 32473.1, 2 active landmarks and a limit of 64.
pub(crate) const NEW_LOG: [u8; 36] = [
    0x6D, 0x74, 0x63, 0x2D, 0x6A, 0x6F, 0x75, 0x72, 0x6E, 0x61, 0x6C, 0x2F, 0x76, 0x31, 0x0A, 0x00,
    0x01, 0x00, 0x00, 0x00, 0x0E, 0x01, 0x04, 0x81, 0xFD, 0x59, 0x01, 0x00, 0x00, 0x00, 0x02, 0x00,
    0x00, 0x00, 0x40, 0x00,
];

// What follows the commit byte of the record in the journal of that log with one entry, up to the
// entry.
pub(crate) const ENTRY_HEAD: [u8; 7] = [0x00, 0x00, 0x00, 0xB4, 0x02, 0x00, 0x83];

// The entry of a certificate for `a.example` that this log issues, and its key.
pub(crate) const ENTRY: [u8; 131] = [
    0x00, 0x01, 0xA0, 0x03, 0x02, 0x01, 0x02, 0x30, 0x19, 0x31, 0x17, 0x30, 0x15, 0x06, 0x0A, 0x2B,
    0x06, 0x01, 0x04, 0x01, 0x82, 0xDA, 0x4B, 0x2F, 0x01, 0x0C, 0x07, 0x33, 0x32, 0x34, 0x37, 0x33,
    0x2E, 0x31, 0x30, 0x1E, 0x17, 0x0D, 0x32, 0x36, 0x30, 0x31, 0x30, 0x31, 0x30, 0x30, 0x30, 0x30,
    0x30, 0x30, 0x5A, 0x17, 0x0D, 0x32, 0x36, 0x30, 0x31, 0x30, 0x38, 0x30, 0x30, 0x30, 0x30, 0x30,
    0x30, 0x5A, 0x30, 0x00, 0x04, 0x20, 0x72, 0x2A, 0xBD, 0x12, 0xE9, 0x9A, 0x53, 0x67, 0xF3, 0x75,
    0xAE, 0xB9, 0x67, 0x2A, 0x8E, 0x07, 0x71, 0x2E, 0x03, 0xC2, 0xAD, 0xD1, 0x6F, 0xA8, 0xD6, 0x91,
    0x4D, 0x1C, 0xFA, 0x2E, 0xFE, 0x0C, 0xA3, 0x1B, 0x30, 0x19, 0x30, 0x17, 0x06, 0x03, 0x55, 0x1D,
    0x11, 0x01, 0x01, 0xFF, 0x04, 0x0D, 0x30, 0x0B, 0x82, 0x09, 0x61, 0x2E, 0x65, 0x78, 0x61, 0x6D,
    0x70, 0x6C, 0x65,
];

pub(crate) const KEY: [u8; 44] = [
    0x30, 0x2A, 0x30, 0x05, 0x06, 0x03, 0x2B, 0x65, 0x70, 0x03, 0x21, 0x00, 0x00, 0x00, 0x00, 0x00,
    0x00, 0x00, 0x00, 0x00, 0x00, 0x00, 0x00, 0x00, 0x00, 0x00, 0x00, 0x00, 0x00, 0x00, 0x00, 0x00,
    0x00, 0x00, 0x00, 0x00, 0x00, 0x00, 0x00, 0x00, 0x00, 0x00, 0x00, 0x00,
];

/// A log over two disks in memory, that of its journal and that of its tiles.
pub(crate) type MemLog = Log<Sha, MemDisk, MemDisk>;

pub(crate) type MemRefused = LogRefused<MemDisk, MemDisk>;

pub(crate) fn disk(alloc: Global, bytes: &[u8], failing: &[u64]) -> Result<MemDisk, Memory> {
    let bytes = Bytes::copy_of(alloc, bytes)?;
    Ok(MemDisk::over(alloc, bytes, Vec::from_slice(alloc, failing)?))
}

/// Opens the log on a disk, with an empty one for its tiles.
pub(crate) fn open(alloc: Global, disk: MemDisk) -> Result<MemLog, MemRefused> {
    open_over(alloc, disk, no_bytes(alloc))
}

/// Opens the log on a disk, with its tiles on another one and a pool of one frame.
pub(crate) fn open_over(
    alloc: Global,
    disk: MemDisk,
    tiles: MemDisk,
) -> Result<MemLog, MemRefused> {
    match Pool::new(alloc, 1) {
        Ok(pool) => Log::open(alloc, disk, tiles, pool),
        Err(Memory) => Err(LogRefused {
            disk,
            tiles,
            why: LogOpenError::Open(OpenError::Memory),
        }),
    }
}

/// The log on a disk, where there is one, with an empty one for its tiles.
pub(crate) fn opened(alloc: Global, disk: MemDisk) -> Option<MemLog> {
    open(alloc, disk).ok()
}

/// The log over these disks, where there is one.
pub(crate) fn opened_over(alloc: Global, disk: MemDisk, tiles: MemDisk) -> Option<MemLog> {
    open_over(alloc, disk, tiles).ok()
}

/// A disk without bytes.
pub(crate) fn no_bytes(alloc: Global) -> MemDisk {
    MemDisk::new(alloc, Vec::new(alloc))
}

/// Whether a disk holds these bytes.
pub(crate) fn holds(disk: &MemDisk, bytes: &[u8]) -> bool {
    disk.bytes() == bytes
}

/// What a crash leaves of a disk by this pick.
pub(crate) fn left(disk: &MemDisk, pick: u64) -> Result<MemDisk, Memory> {
    disk.open_copy()?.crash(pick)
}

/// The disks of a log's journal and of its tiles.
pub(crate) fn disks_of(log: MemLog) -> (MemDisk, MemDisk) {
    log.into_disks()
}

/// The disk of a log's journal.
pub(crate) fn disk_of(log: MemLog) -> MemDisk {
    disks_of(log).0
}

/// How many entries a log has.
pub(crate) fn size(log: &MemLog) -> u64 {
    log.size()
}

/// Whether these are the sizes at a log's landmarks.
pub(crate) fn has_marks(log: &MemLog, sizes: &[u64]) -> bool {
    log.marks() == sizes
}

/// Sets a landmark.
pub(crate) fn mark(log: &mut MemLog) -> Result<(u64, u64), LogError> {
    log.mark()
}

/// Stores the tiles.
pub(crate) fn tile(log: &mut MemLog) -> Result<u64, LogError> {
    log.tile()
}

/// The log in these bytes, where there is one.
pub(crate) fn log_in(alloc: Global, bytes: &[u8]) -> Result<Option<MemLog>, Memory> {
    Ok(opened(alloc, disk(alloc, bytes, &[])?))
}

// How many entries a log has that is dropped.
fn last_size(log: MemLog) -> u64 {
    size(&log)
}

/// Why there is no log.
pub(crate) fn reason(refused: MemRefused) -> LogOpenError {
    refused.why
}

/// The size of the log that was opened, or why there is none.
pub(crate) fn size_or_reason(answer: Result<MemLog, MemRefused>) -> Result<u64, LogOpenError> {
    match answer {
        Ok(log) => Ok(last_size(log)),
        Err(refused) => Err(reason(refused)),
    }
}

/// The size of the log in these bytes.
pub(crate) fn size_of(alloc: Global, bytes: &[u8]) -> Result<Result<u64, LogOpenError>, Memory> {
    Ok(size_or_reason(open(alloc, disk(alloc, bytes, &[])?)))
}

/// Begins the journal of a log with id 32473.1, 2 active landmarks and this limit.
pub(crate) fn begin(
    alloc: Global,
    disk: MemDisk,
    limit: u32,
) -> Result<(MemDisk, Option<StartError>), Memory>
    requires some { 2 ≤ limit }
    requires few { limit ≤ 1048576 }
{
    let Ok(id) = AnchorId::from_text(alloc, "32473.1") else {
        return Err(Memory);
    };
    let settings = LogSettings {
        id,
        max_active: 2,
        limit,
    };
    match create(alloc, disk, &settings) {
        Ok(journal) => Ok((journal.into_disk(), None)),
        Err(Refused { disk, why }) => Ok((disk, Some(why))),
    }
}

/// Adds an entry whose key matches.
pub(crate) fn add(log: &mut MemLog, entry: &[u8], key: &[u8]) -> Result<u64, LogError> {
    if key_matches_in::<Sha>(entry, key, log.form()) {
        log.add(entry, key)
    } else {
        Err(LogError::NoSuchEntry)
    }
}

/// The journal with the one entry.
pub(crate) fn with_entry(alloc: Global) -> Result<Bytes, Memory> {
    let mut wanted = Bytes::copy_of(alloc, &NEW_LOG)?;
    wanted.truncate(35);
    add_entry(&mut wanted)?;
    Ok(wanted)
}

/// The record of the entry after those of a journal that was cut off before its last commit byte.
pub(crate) fn add_entry(journal: &mut Bytes) -> Result<(), Memory> {
    journal.append(&[0x01])?;
    journal.append(&ENTRY_HEAD)?;
    journal.append(&ENTRY)?;
    journal.append(&[0x00, 0x2C])?;
    journal.append(&KEY)?;
    journal.append(&[0x00])
}

/// The bytes with another one at an offset.
pub(crate) fn changed(
    alloc: Global,
    bytes: &[u8],
    offset: usize,
    byte: u8,
) -> Result<Bytes, Memory> {
    let mut bytes = Vec::from_slice(alloc, bytes)?;
    if let Some(old) = bytes.get_mut(offset) {
        *old = byte;
    }
    Ok(Bytes::from_vec(bytes))
}

/// The entry with the hash of another key.
pub(crate) fn entry_for(alloc: Global, key: &[u8]) -> Result<Bytes, Memory> {
    let mut entry = Vec::from_slice(alloc, &ENTRY)?;
    for (index, byte) in key_hash::<Sha>(key).iter().enumerate() {
        if let Some(old) = entry.get_mut(70 + index) {
            *old = *byte;
        }
    }
    Ok(Bytes::from_vec(entry))
}

/// What a log gives at an index, where the two byte strings held other bytes.
pub(crate) fn item_at(
    alloc: Global,
    log: &mut MemLog,
    index: u64,
) -> Result<(Bytes, Bytes, Result<(), LogError>), Memory> {
    let mut entry = Bytes::copy_of(alloc, b"old")?;
    let mut key = Bytes::copy_of(alloc, b"old")?;
    let answer = log.entry(index, &mut entry, &mut key);
    Ok((entry, key, answer))
}
