//! Entries that are added, or refused.

use crate::journals::{
    ENTRY, KEY, MemLog, MemRefused, NEW_LOG, add, add_entry, begin, changed, disk, disk_of,
    entry_for, holds, left, log_in, no_bytes, open, opened, size, size_of, with_entry,
};
use disk_core::MemDisk;
use issuance_log::{LogError, LogOpenError};
use journal_core::{AppendError, OpenError};
use mtc_io::{Bytes, Memory};
use std::alloc::Global;
use std::test::Fail;

// The head of a public key like that one in so many bytes, of which the last ones are 0: the
// lengths of the whole and of the bits take two bytes each.
const LONG_KEY: [u8; 16] = [
    0x30, 0x82, 0x00, 0x00, 0x30, 0x05, 0x06, 0x03, 0x2B, 0x65, 0x70, 0x03, 0x82, 0x00, 0x00, 0x00,
];

// Whether a log takes the entry, and not a second time.
fn takes_one(log: &mut MemLog) -> bool {
    add(log, &ENTRY, &KEY) == Ok(1)
        && add(log, &ENTRY, &KEY) == Err(LogError::Full)
        && size(log) == 2
}

// Whether a log of two entries at most takes one, and no second one.
fn is_filled(alloc: Global) -> Result<bool, Memory> {
    let (made, _) = begin(alloc, no_bytes(alloc), 2)?;
    let Some(mut log) = opened(alloc, made) else {
        return Ok(false);
    };
    let taken = takes_one(&mut log);
    Ok(disk_of(log).bytes().len() == 221 && taken)
}

// The journal of the same log with a second entry.
fn size_of_overfull(alloc: Global) -> Result<Result<u64, LogOpenError>, Memory> {
    let mut more = changed(alloc, with_entry(alloc)?.as_slice(), 34, 0x02)?;
    more.truncate(220);
    add_entry(&mut more)?;
    size_of(alloc, more.as_slice())
}

#[test]
fn a_full_log_takes_no_entry(rt: HostRuntime) -> Result<(), Fail> {
    assert!(rt; is_filled(rt.alloc())?);
    assert!(rt; size_of_overfull(rt.alloc())? == Err(LogOpenError::BadRecord(2)));
    Ok(())
}

// A public key of so many bytes, from 400 to 65,536.
fn long_key(alloc: Global, size: usize) -> Result<Bytes, Memory> {
    let mut key = Vec::from_slice(alloc, &LONG_KEY)?;
    let (whole, bits) = (size.saturating_sub(4), size.saturating_sub(15));
    for (offset, number) in [(2, whole >> 8), (3, whole), (13, bits >> 8), (14, bits)] {
        if let Some(byte) = key.get_mut(offset) {
            *byte = (number & 255) as u8;
        }
    }
    for _ in 16..size {
        key.push(0)?;
    }
    Ok(Bytes::from_vec(key))
}

// What a new log answers to an entry whose key has so many bytes; none where the key has other
// ones.
fn add_long(alloc: Global, size: usize) -> Result<Option<Result<u64, LogError>>, Memory> {
    let key = long_key(alloc, size)?;
    let entry = entry_for(alloc, key.as_slice())?;
    if key.len() != size {
        return Ok(None);
    }
    let Some(mut log) = log_in(alloc, &NEW_LOG)? else {
        return Ok(None);
    };
    let answer = add(&mut log, entry.as_slice(), key.as_slice());
    Ok(Some(answer))
}

// The entry and its key have 131 bytes more than the key.
#[test]
fn an_item_has_65535_bytes_at_most(rt: HostRuntime) -> Result<(), Fail> {
    let cases: [(usize, Result<u64, LogError>); 2] = [
        (65_405, Err(LogError::TooLarge)),
        (65_404, Ok(1)),
    ];
    for (size, wanted) in cases {
        assert!(rt; add_long(rt.alloc(), size)? == Some(wanted), "{size} bytes");
    }
    Ok(())
}

// Whether each of sixteen crash states that a crash leaves has the null entry alone, or the entry
// too.
fn leaves_one_more_at_most(alloc: Global, journal: &MemDisk) -> Result<bool, Memory> {
    for pick in 0..16 {
        let crash_state = left(journal, pick)?;
        if !matches!(size_of(alloc, crash_state.bytes())?, Ok(1 | 2)) {
            return Ok(false);
        }
    }
    Ok(true)
}

// Whether a log shows its old items and takes none more.
fn is_broken(log: &mut MemLog) -> bool {
    size(log) == 1
        && add(log, &ENTRY, &KEY) == Err(LogError::Append(AppendError::Broken))
        && size(log) == 1
}

// The log shows its old items, and a crash leaves these, or these and the entry.
fn shows_the_old_log(alloc: Global, mut log: MemLog) -> Result<bool, Memory> {
    let kept = is_broken(&mut log);
    Ok(leaves_one_more_at_most(alloc, &disk_of(log))? && kept)
}

// Whether a log does not take the entry, and stays as it was.
fn fails_to_add(alloc: Global, mut log: MemLog) -> Result<bool, Memory> {
    let reported = add(&mut log, &ENTRY, &KEY) == Err(LogError::Append(AppendError::Failed));
    Ok(shows_the_old_log(alloc, log)? && reported)
}

// Whether a refusal returns a disk that failed as it was.
fn is_returned(refused: MemRefused) -> bool {
    refused.why == LogOpenError::Open(OpenError::Failed) && holds(&refused.disk, &NEW_LOG)
}

// Whether a log of which this call of the disk fails answers that, and stays as it was. Four calls
// open the log, and the next four add the entry.
fn fails_soundly(alloc: Global, call: u64) -> Result<bool, Memory> {
    match open(alloc, disk(alloc, &NEW_LOG, &[call])?) {
        Ok(log) => Ok(call >= 4 && fails_to_add(alloc, log)?),
        Err(refused) => Ok(call < 4 && is_returned(refused)),
    }
}

#[test]
fn each_call_of_the_disk_may_fail(rt: HostRuntime) -> Result<(), Fail> {
    for call in 0..8 {
        assert!(rt; fails_soundly(rt.alloc(), call)?, "call {call}");
    }
    Ok(())
}
