//! Files that are opened as logs, or refused.

use crate::journals::{NEW_LOG, begin, changed, size_of, with_entry};
use disk_core::MemDisk;
use issuance_log::LogOpenError;
use journal_core::{OpenError, StartError};
use mtc_io::{Bytes, Memory};
use std::alloc::Global;
use std::test::Fail;

// The size of the log with the one entry, where a byte of its journal is another one and the end is
// cut off.
fn size_with(
    alloc: Global,
    change: (usize, u8),
    count: usize,
) -> Result<Result<u64, LogOpenError>, Memory> {
    let full = with_entry(alloc)?;
    let mut bytes = changed(alloc, full.as_slice(), change.0, change.1)?;
    bytes.truncate(count);
    size_of(alloc, bytes.as_slice())
}

#[test]
fn a_changed_byte_is_reported(rt: HostRuntime) -> Result<(), Fail> {
    let changes: [(usize, u8, Result<u64, LogOpenError>); 13] = [
        (16, 0x00, Err(LogOpenError::BadRecord(0))),
        (16, 0x80, Ok(2)),
        (20, 0x00, Err(LogOpenError::Open(OpenError::BadLength(16)))),
        (21, 0x02, Err(LogOpenError::BadRecord(0))),
        (22, 0x05, Err(LogOpenError::BadRecord(0))),
        (30, 0x00, Err(LogOpenError::BadRecord(0))),
        (34, 0x02, Ok(2)),
        (34, 0x01, Err(LogOpenError::BadRecord(0))),
        (35, 0x00, Ok(1)),
        (40, 0x01, Err(LogOpenError::BadRecord(1))),
        (40, 0x03, Err(LogOpenError::BadRecord(1))),
        (40, 0x04, Err(LogOpenError::BadRecord(1))),
        (113, 0x73, Err(LogOpenError::BadRecord(1))),
    ];
    for (offset, byte, wanted) in changes {
        assert!(rt;
            size_with(rt.alloc(), (offset, byte), 221)? == wanted,
            "byte {offset}"
        );
    }
    Ok(())
}

// Byte 113 is of the entry's hash of its key: a record that breaks the rules is reported before
// what is missing after it; what is missing within it, before that.
#[test]
fn the_first_fault_is_reported(rt: HostRuntime) -> Result<(), Fail> {
    let cuts: [(u8, usize, Result<u64, LogOpenError>); 8] = [
        (0x72, 221, Ok(2)),
        (0x72, 220, Err(LogOpenError::Open(OpenError::CutShort(220)))),
        (0x72, 219, Err(LogOpenError::Open(OpenError::CutShort(35)))),
        (0x72, 35, Err(LogOpenError::Open(OpenError::CutShort(35)))),
        (0x72, 30, Err(LogOpenError::Open(OpenError::CutShort(16)))),
        (0x72, 15, Err(LogOpenError::Open(OpenError::NotJournal))),
        (0x73, 220, Err(LogOpenError::BadRecord(1))),
        (0x73, 219, Err(LogOpenError::Open(OpenError::CutShort(35)))),
    ];
    for (byte, count, wanted) in cuts {
        assert!(rt;
            size_with(rt.alloc(), (113, byte), count)? == wanted,
            "{count} bytes"
        );
    }
    Ok(())
}

// The one record of a new log stands there twice.
fn size_of_twice(alloc: Global) -> Result<Result<u64, LogOpenError>, Memory> {
    let mut twice = Bytes::copy_of(alloc, &NEW_LOG[..35])?;
    twice.append(&NEW_LOG[16..])?;
    size_of(alloc, twice.as_slice())
}

#[test]
fn a_second_log_is_refused(rt: HostRuntime) -> Result<(), Fail> {
    assert!(rt; size_of_twice(rt.alloc())? == Err(LogOpenError::BadRecord(1)));
    Ok(())
}

// What is found of a new journal, of which this call of the disk failed.
fn size_of_failed(
    alloc: Global,
    call: u64,
) -> Result<(Option<StartError>, Result<u64, LogOpenError>), Memory> {
    let failing = Vec::from_slice(alloc, &[call])?;
    let (made, why) = begin(alloc, MemDisk::new(alloc, failing), 64)?;
    Ok((why, size_of(alloc, made.bytes())?))
}

#[test]
fn a_beginning_may_fail(rt: HostRuntime) -> Result<(), Fail> {
    let cases: [Result<u64, LogOpenError>; 5] = [
        Err(LogOpenError::Open(OpenError::NotJournal)),
        Err(LogOpenError::Open(OpenError::NotJournal)),
        Err(LogOpenError::BadRecord(0)),
        Err(LogOpenError::BadRecord(0)),
        Ok(1),
    ];
    for (call, size) in cases.iter().enumerate() {
        let wanted = (Some(StartError::Failed), *size);
        assert!(rt;
            size_of_failed(rt.alloc(), call as u64)? == wanted,
            "call {call}"
        );
    }
    Ok(())
}
