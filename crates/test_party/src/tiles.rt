//! Logs over two disks, where those of their tiles fail, or a crash comes.

use crate::journals::{
    KEY, MemLog, add, begin, disk, disk_of, disks_of, entry_for, left, no_bytes, open_over, opened,
    opened_over, reason, size, size_or_reason, tile,
};
use disk_core::MemDisk;
use issuance_log::{LogError, LogOpenError};
use journal_core::AppendError;
use mtc_io::{Bytes, Failed, Memory};
use std::alloc::Global;
use std::test::Fail;
use tile_store::TileError;
use tree_proofs::Nodes;

// The key of an entry, by its number.
fn key_of(alloc: Global, number: u64) -> Result<Bytes, Memory> {
    let mut key = Bytes::copy_of(alloc, &KEY)?;
    key.truncate(36);
    key.append(&number.to_be_bytes())?;
    Ok(key)
}

// A log with the null entry alone.
fn new_log(alloc: Global) -> Result<Option<MemLog>, Memory> {
    let (made, _) = begin(alloc, no_bytes(alloc), 1024)?;
    Ok(opened(alloc, made))
}

// Adds the entry of this number to a log.
fn grow(alloc: Global, log: &mut MemLog, number: u64) -> Result<bool, Memory> {
    let key = key_of(alloc, number)?;
    let entry = entry_for(alloc, key.as_slice())?;
    Ok(add(log, entry.as_slice(), key.as_slice()) == Ok(number))
}

// Whether a log with the null entry alone grows to so many entries.
fn fill(alloc: Global, log: &mut MemLog, size: u64) -> Result<bool, Memory> {
    for number in 1..size {
        if !grow(alloc, log, number)? {
            return Ok(false);
        }
    }
    Ok(true)
}

// A log of so many entries.
fn grown(alloc: Global, size: u64) -> Result<Option<MemLog>, Memory> {
    let Some(mut log) = new_log(alloc)? else {
        return Ok(None);
    };
    let filled = fill(alloc, &mut log, size)?;
    Ok(if filled { Some(log) } else { None })
}

/// The journal of a log of so many entries, without tiles.
pub(crate) fn log_of(alloc: Global, size: u64) -> Result<Option<MemDisk>, Memory> {
    Ok(grown(alloc, size)?.map(disk_of))
}

// A node; none of what the nodes have not.
fn node<N: Nodes>(nodes: &mut N, level: u32, place: u64) -> Option<Result<[u8; 32], Failed>> {
    let size = nodes.size();
    if level >= 32 || place >= size >> level {
        return None;
    }
    Some(nodes.node(level, place))
}

/// The two files of a log of so many entries, tiled.
pub(crate) fn files(alloc: Global, size: u64) -> Result<Option<(MemDisk, MemDisk)>, Memory> {
    let Some(mut log) = grown(alloc, size)? else {
        return Ok(None);
    };
    let tiled = tile(&mut log).is_ok();
    let disks = disks_of(log);
    Ok(if tiled { Some(disks) } else { None })
}

// The size of the log over these files, or why it is refused.
fn size_over(
    alloc: Global,
    journal: &MemDisk,
    tiles: &[u8],
) -> Result<Result<u64, LogOpenError>, Memory> {
    let answer = open_over(alloc, journal.open_copy()?, disk(alloc, tiles, &[])?);
    Ok(size_or_reason(answer))
}

/// So many numbers of calls from this one on.
pub(crate) fn calls_from(alloc: Global, call: u64, count: u64) -> Result<Vec<u64>, Memory> {
    let mut failing = Vec::new(alloc);
    for number in call..call.saturating_add(count) {
        failing.push(number)?;
    }
    Ok(failing)
}

// Whether a log's first leaf can't be read.
fn loses_the_first_leaf(mut log: MemLog) -> bool {
    node(&mut log, 0, 0) == Some(Err(Failed))
}

// The log over a file of tiles on which each call from this number on fails, and whether its first
// leaf, whose tile no frame holds, then fails too.
fn fails_from(
    alloc: Global,
    journal: &MemDisk,
    tiles: &[u8],
    call: u64,
) -> Result<Result<bool, LogOpenError>, Memory> {
    let failing = calls_from(alloc, call, 50)?;
    let device = MemDisk::over(alloc, Bytes::copy_of(alloc, tiles)?, failing);
    match open_over(alloc, journal.open_copy()?, device) {
        Ok(log) => Ok(Ok(loses_the_first_leaf(log))),
        Err(refused) => Ok(Err(reason(refused))),
    }
}

// The first call that is not one of the opening, where each of these is reported and the leaf
// fails.
fn calls_of_opening(alloc: Global, journal: &MemDisk, tiles: &[u8]) -> Result<Option<u64>, Memory> {
    for call in 0..20 {
        match fails_from(alloc, journal, tiles, call)? {
            Ok(true) => return Ok(Some(call)),
            Err(LogOpenError::Tile(TileError::Failed)) => {}
            _ => return Ok(None),
        }
    }
    Ok(None)
}

// The length is asked for, and both tiles are read.
#[test]
fn a_file_of_tiles_may_fail(rt: HostRuntime) -> Result<(), Fail> {
    let (journal, tiles) = files(rt.alloc(), 512)?.ok_or("refused")?;
    assert!(rt; calls_of_opening(rt.alloc(), &journal, tiles.bytes())? == Some(3));
    Ok(())
}

// The size of the log in the crash states that a crash leaves of both files by a pick.
fn size_left(
    alloc: Global,
    journal: &MemDisk,
    tiles: &MemDisk,
    pick: u64,
) -> Result<Result<u64, LogOpenError>, Memory> {
    let stored = left(tiles, pick ^ 3)?;
    size_over(alloc, &left(journal, pick)?, stored.bytes())
}

// Whether each of some crash states that a crash leaves of both files opens as a log of 256
// entries.
fn opens_again(alloc: Global, journal: &MemDisk, tiles: &MemDisk) -> Result<bool, Memory> {
    for pick in 0..4 {
        if size_left(alloc, journal, tiles, pick)? != Ok(256) {
            return Ok(false);
        }
    }
    Ok(true)
}

// What `tile` answers where these calls of the two disks fail, and whether the log is still of 256
// entries then, and after a crash; none if the log isn't opened.
fn tile_over(
    alloc: Global,
    journal: &[u8],
    calls: (&[u64], &[u64]),
) -> Result<Option<(Result<u64, LogError>, bool)>, Memory> {
    let (journal, tiles) = (disk(alloc, journal, calls.0)?, disk(alloc, &[], calls.1)?);
    let Some(mut log) = opened_over(alloc, journal, tiles) else {
        return Ok(None);
    };
    let answer = tile(&mut log);
    let same = size(&log) == 256;
    let (journal, tiles) = disks_of(log);
    Ok(Some((answer, same && opens_again(alloc, &journal, &tiles)?)))
}

// The same where this call of the one disk or of the other fails.
fn tile_failing(
    alloc: Global,
    journal: &[u8],
    of_tiles: bool,
    call: u64,
) -> Result<Option<(Result<u64, LogError>, bool)>, Memory> {
    if of_tiles {
        tile_over(alloc, journal, (&[], &[call]))
    } else {
        tile_over(alloc, journal, (&[call], &[]))
    }
}

// How many calls of the disk of the tiles, and of that of the journal after its opening, fail
// before `tile` answers Ok.
fn failures(alloc: Global, journal: &[u8], of_tiles: bool) -> Result<Option<u64>, Memory> {
    let wanted = if of_tiles {
        LogError::Failed
    } else {
        LogError::Append(AppendError::Failed)
    };
    let mut failed = 0u64;
    for call in 0..40 {
        match tile_failing(alloc, journal, of_tiles, call)? {
            Some((Ok(256), true)) => return Ok(Some(failed)),
            Some((Err(why), true)) if why == wanted => failed = failed.saturating_add(1),
            None if !of_tiles && failed == 0 => {}
            _ => return Ok(None),
        }
    }
    Ok(None)
}

// The tiles are synced, the one of 256 entries is written, and they are synced; the record is
// appended by two writes and two syncs.
#[test]
fn each_call_of_tile_may_fail(rt: HostRuntime) -> Result<(), Fail> {
    let log = grown(rt.alloc(), 256)?.ok_or("refused")?;
    let journal = disk_of(log);
    assert!(rt; failures(rt.alloc(), journal.bytes(), true)? == Some(3));
    assert!(rt; failures(rt.alloc(), journal.bytes(), false)? == Some(4));
    Ok(())
}
