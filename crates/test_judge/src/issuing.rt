//! Issuing into a small log, also over a disk that fails.

use crate::entries::{entry_in_log, request_of};
use crate::judgements::anchor;
use authority_core::{IssueError, Request, issue};
use disk_core::MemDisk;
use frame_pool::Pool;
use issuance_log::{Log, LogError, LogSettings, create};
use journal_core::AppendError;
use mtc_io::Bytes;
use std::alloc::Global;
use std::test::Fail;
use tree_core::Sha;

pub(crate) const DATES: &str =
    "not_before = \"2026-01-01T00:00:00Z\"\nnot_after = \"2026-01-08T00:00:00Z\"\n";

pub(crate) const KEY: &str =
    "key = \"MCowBQYDK2VwAyEAAAAAAAAAAAAAAAAAAAAAAAAAAAAAAAAAAAAAAAAAAAA=\"\n";

pub(crate) const DNS: &str = "dns = [\"a.example\"]\n";

const NAMED: &str = "common_name = \"\u{E4} b\"\n";

// A disk without bytes.
fn no_bytes(alloc: Global) -> MemDisk {
    MemDisk::new(alloc, Vec::new(alloc))
}

// A disk with a new log of this limit, which is one that is allowed.
pub(crate) fn new_log(alloc: Global, limit: u32) -> Result<MemDisk, Fail> {
    if limit < 2 || limit > 1_048_576 {
        return Err(Fail::from("no limit"));
    }
    let settings = LogSettings {
        id: anchor(alloc, "32473.1")?,
        max_active: 2,
        limit,
    };
    match create(alloc, no_bytes(alloc), &settings) {
        Ok(journal) => Ok(journal.into_disk()),
        Err(_) => Err(Fail::from("no new log")),
    }
}

/// A log over two disks in memory, that of its journal and that of its tiles.
pub(crate) type MemLog = Log<Sha, MemDisk, MemDisk>;

/// The log over these disks, with one frame for its tiles; none where it isn't opened.
pub(crate) fn open_over(
    alloc: Global,
    disk: MemDisk,
    tiles: MemDisk,
) -> Result<Option<MemLog>, Fail> {
    let pool = Pool::new(alloc, 1)?;
    match Log::open(alloc, disk, tiles, pool) {
        Ok(log) => Ok(Some(log)),
        Err(_) => Ok(None),
    }
}

pub(crate) fn open(alloc: Global, disk: MemDisk) -> Result<MemLog, Fail> {
    match open_over(alloc, disk, no_bytes(alloc))? {
        Some(log) => Ok(log),
        None => Err(Fail::from("no log")),
    }
}

// What a log answers to the request of these lines.
pub(crate) fn issued(
    alloc: Global,
    log: &mut MemLog,
    lines: &[&str],
) -> Result<Result<u64, IssueError>, Fail> {
    Ok(add(alloc, log, &request_of(alloc, lines)?))
}

/// What a log answers to a request.
pub(crate) fn add(alloc: Global, log: &mut MemLog, asked: &Request) -> Result<u64, IssueError> {
    issue(alloc, log, asked)
}

/// The disks of a log's journal and of its tiles.
pub(crate) fn disks_of(log: MemLog) -> (MemDisk, MemDisk) {
    log.into_disks()
}

fn size(log: &MemLog) -> u64 {
    log.size()
}

// The entry at index 1 of the log, where it has one.
fn first_entry(alloc: Global, log: &mut MemLog) -> Option<Bytes> {
    let mut entry = Bytes::new(alloc);
    let mut key = Bytes::new(alloc);
    match log.entry(1, &mut entry, &mut key) {
        Ok(()) => Some(entry),
        Err(_) => None,
    }
}

// A log has this entry at index 1, and no further one.
fn has_one(alloc: Global, log: &mut MemLog, wanted: &[u8]) -> bool {
    let is_second = size(log) == 2;
    match first_entry(alloc, log) {
        Some(entry) => is_second && entry.as_slice() == wanted,
        None => false,
    }
}

// The same of the log that is opened from a disk.
fn holds(alloc: Global, disk: MemDisk, wanted: &[u8]) -> Result<bool, Fail> {
    let mut log = open(alloc, disk)?;
    Ok(has_one(alloc, &mut log, wanted))
}

// Whether a log of two entries at most issues the request of these lines once.
fn takes_one(alloc: Global, log: &mut MemLog, lines: &[&str]) -> Result<bool, Fail> {
    Ok(
        issued(alloc, log, lines)? == Ok(1)
            && issued(alloc, log, lines)? == Err(IssueError::Log(LogError::Full)),
    )
}

// The disks of such a log, where it does.
fn filled(alloc: Global, lines: &[&str]) -> Result<Option<(MemDisk, MemDisk)>, Fail> {
    let mut log = open(alloc, new_log(alloc, 2)?)?;
    let taken = takes_one(alloc, &mut log, lines);
    let disks = disks_of(log);
    Ok(if taken? { Some(disks) } else { None })
}

#[test]
fn a_request_is_issued_until_the_log_is_full(rt: HostRuntime) -> Result<(), Fail> {
    let alloc = rt.alloc();
    let lines = [DATES, DNS, KEY];
    let (disk, tiles) = filled(alloc, &lines)?.ok_or("not issued once")?;
    assert!(rt; disk.bytes().len() == 221 && tiles.bytes().is_empty());
    assert!(rt; holds(alloc, disk, entry_in_log(alloc, &lines)?.as_slice())?);
    Ok(())
}

/// A disk with these bytes, of which these calls fail.
pub(crate) fn disk_over(alloc: Global, bytes: &[u8], failing: &[u64]) -> Result<MemDisk, Fail> {
    let bytes = Bytes::copy_of(alloc, bytes)?;
    Ok(MemDisk::over(alloc, bytes, Vec::from_slice(alloc, failing)?))
}

// The log in these bytes, on a disk of which this call fails; none where it isn't opened.
fn failing_log(alloc: Global, bytes: &[u8], call: u64) -> Result<Option<MemLog>, Fail> {
    let disk = disk_over(alloc, bytes, &[call])?;
    open_over(alloc, disk, no_bytes(alloc))
}

// Whether a failure of the log's disk is reported of this request, and its size then; none if the
// log isn't opened.
fn issued_at_failure(
    alloc: Global,
    bytes: &[u8],
    call: u64,
    lines: &[&str],
) -> Result<Option<(bool, u64)>, Fail> {
    let Some(mut log) = failing_log(alloc, bytes, call)? else {
        return Ok(None);
    };
    let failed = Err(IssueError::Log(LogError::Append(AppendError::Failed)));
    let answer = issued(alloc, &mut log, lines);
    let size = size(&log);
    Ok(Some((answer? == failed, size)))
}

// Four calls open the log, and the next four add the entry.
#[test]
fn a_failure_of_the_disk_is_reported_and_adds_nothing(rt: HostRuntime) -> Result<(), Fail> {
    let alloc = rt.alloc();
    let bytes = Bytes::copy_of(alloc, new_log(alloc, 64)?.bytes())?;
    for call in 0..10u64 {
        let wanted = match call {
            0..=3 => None,
            4..=7 => Some((true, 1)),
            _ => Some((false, 2)),
        };
        let reported = issued_at_failure(alloc, bytes.as_slice(), call, &[DATES, DNS, KEY, NAMED])?;
        assert!(rt; reported == wanted, "{call}");
    }
    Ok(())
}
