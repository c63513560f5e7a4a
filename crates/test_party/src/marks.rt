//! Landmarks that are set, read and refused.

use crate::journals::{
    ENTRY, KEY, MemLog, NEW_LOG, add, disk, disk_of, has_marks, holds, left, log_in, mark, opened,
    size, size_of, with_entry,
};
use disk_core::MemDisk;
use issuance_log::{LogError, LogOpenError};
use journal_core::AppendError;
use mtc_io::{Bytes, Memory};
use std::alloc::Global;
use std::test::Fail;

// The record of a landmark at this size, below 256, after those of a journal that was cut off
// before its last commit byte.
fn add_landmark(journal: &mut Bytes, size: u8) -> Result<(), Memory> {
    journal.append(&[0x01, 0x00, 0x00, 0x00, 0x09])?;
    journal.append(&[0x03, 0x00, 0x00, 0x00, 0x00, 0x00, 0x00, 0x00, size])?;
    journal.append(&[0x00])
}

// The journal of the new log, with a landmark at its size, an entry, and one at that size.
fn with_landmarks(alloc: Global) -> Result<Bytes, Memory> {
    let mut wanted = Bytes::copy_of(alloc, &NEW_LOG[..35])?;
    add_landmark(&mut wanted, 1)?;
    wanted.truncate(49);
    let both = with_entry(alloc)?;
    if let Some(following) = both.as_slice().get(35..220) {
        wanted.append(following)?;
    }
    add_landmark(&mut wanted, 2)?;
    Ok(wanted)
}

// Whether this landmark is set, and no second one at its size; and the sizes at all then.
fn sets(log: &mut MemLog, landmark: (u64, u64), sizes: &[u64]) -> bool {
    mark(log) == Ok(landmark) && mark(log) == Err(LogError::NothingNew) && has_marks(log, sizes)
}

// Whether the calls of a new log answer so, in this order.
fn answers(log: &mut MemLog) -> bool {
    has_marks(log, &[])
        && sets(log, (1, 1), &[1])
        && add(log, &ENTRY, &KEY) == Ok(1)
        && has_marks(log, &[1])
        && sets(log, (2, 2), &[1, 2])
}

// The journal after these calls.
fn marked(alloc: Global) -> Result<Option<MemDisk>, Memory> {
    let Some(mut log) = log_in(alloc, &NEW_LOG)? else {
        return Ok(None);
    };
    let reported = answers(&mut log);
    let journal = disk_of(log);
    Ok(if reported { Some(journal) } else { None })
}

// Whether a journal is opened as that of two entries and both landmarks.
fn is_found_again(alloc: Global, journal: MemDisk) -> bool {
    let Some(log) = opened(alloc, journal) else {
        return false;
    };
    size(&log) == 2 && has_marks(&log, &[1, 2])
}

#[test]
fn landmarks_are_set_and_found_again(rt: HostRuntime) -> Result<(), Fail> {
    let journal = marked(rt.alloc())?.ok_or("other answers")?;
    assert!(rt; holds(&journal, with_landmarks(rt.alloc())?.as_slice()));
    assert!(rt; is_found_again(rt.alloc(), journal));
    Ok(())
}

// What is found where a byte of that journal is another one.
fn size_with(alloc: Global, offset: usize, byte: u8) -> Result<Result<u64, LogOpenError>, Memory> {
    let bytes = with_landmarks(alloc)?;
    let mut bytes = Vec::from_slice(alloc, bytes.as_slice())?;
    if let Some(old) = bytes.get_mut(offset) {
        *old = byte;
    }
    size_of(alloc, bytes.as_slice())
}

// The records are the log at 16, a landmark at 35, an entry at 49, a landmark at 234.
#[test]
fn a_changed_landmark_is_reported(rt: HostRuntime) -> Result<(), Fail> {
    let changes: [(usize, u8, Result<u64, LogOpenError>); 8] = [
        (48, 0x01, Ok(2)),
        (48, 0x00, Err(LogOpenError::BadRecord(1))),
        (48, 0x02, Err(LogOpenError::BadRecord(1))),
        (41, 0x01, Err(LogOpenError::BadRecord(1))),
        (40, 0x04, Err(LogOpenError::BadRecord(1))),
        (247, 0x01, Err(LogOpenError::BadRecord(3))),
        (247, 0x03, Err(LogOpenError::BadRecord(3))),
        (234, 0x00, Ok(2)),
    ];
    for (offset, byte, wanted) in changes {
        assert!(rt;
            size_with(rt.alloc(), offset, byte)? == wanted,
            "byte {offset}"
        );
    }
    Ok(())
}

// A new log, and after its record this body.
fn size_after(alloc: Global, body: &[u8]) -> Result<Result<u64, LogOpenError>, Memory> {
    let mut bytes = Bytes::copy_of(alloc, &NEW_LOG[..35])?;
    bytes.append(&[0x01, 0x00, 0x00, 0x00, (body.len() & 255) as u8])?;
    bytes.append(body)?;
    bytes.append(&[0x00])?;
    size_of(alloc, bytes.as_slice())
}

#[test]
fn a_landmark_has_eight_bytes(rt: HostRuntime) -> Result<(), Fail> {
    let cases: [(&[u8], Result<u64, LogOpenError>); 4] = [
        (&[3, 0, 0, 0, 0, 0, 0, 0, 1], Ok(1)),
        (&[3, 0, 0, 0, 0, 0, 0, 1], Err(LogOpenError::BadRecord(1))),
        (
            &[3, 0, 0, 0, 0, 0, 0, 0, 1, 0],
            Err(LogOpenError::BadRecord(1)),
        ),
        (&[3], Err(LogOpenError::BadRecord(1))),
    ];
    for (body, wanted) in cases {
        assert!(rt;
            size_after(rt.alloc(), body)? == wanted,
            "{} bytes",
            body.len()
        );
    }
    Ok(())
}

fn count_marks(log: &MemLog) -> usize {
    log.marks().len()
}

// The landmarks of what a crash leaves, none where it is no log.
fn count_left(alloc: Global, bytes: &[u8]) -> Result<Option<usize>, Memory> {
    let Some(log) = log_in(alloc, bytes)? else {
        return Ok(None);
    };
    let count = count_marks(&log);
    Ok(Some(count))
}

// Whether each of sixteen crash states that a crash leaves has no landmark, or the one.
fn leaves_one_at_most(alloc: Global, journal: &MemDisk) -> Result<bool, Memory> {
    for pick in 0..16 {
        let crash_state = left(journal, pick)?;
        if !matches!(count_left(alloc, crash_state.bytes())?, Some(0 | 1)) {
            return Ok(false);
        }
    }
    Ok(true)
}

// Whether a log shows no landmark and takes none more.
fn is_broken(log: &mut MemLog) -> bool {
    has_marks(log, &[])
        && mark(log) == Err(LogError::Append(AppendError::Broken))
        && has_marks(log, &[])
}

// The log shows no landmark and takes none more, and a crash leaves none, or the one.
fn shows_the_old_log(alloc: Global, mut log: MemLog) -> Result<bool, Memory> {
    let kept = is_broken(&mut log);
    Ok(leaves_one_at_most(alloc, &disk_of(log))? && kept)
}

// Whether a log of which this call of the disk fails answers that, and stays as it was. Four calls
// open the log, and the next four set the landmark.
fn fails_soundly(alloc: Global, call: u64) -> Result<bool, Memory> {
    let Some(mut log) = opened(alloc, disk(alloc, &NEW_LOG, &[call])?) else {
        return Ok(false);
    };
    let failed = mark(&mut log) == Err(LogError::Append(AppendError::Failed));
    Ok(shows_the_old_log(alloc, log)? && failed)
}

#[test]
fn each_call_of_a_landmark_may_fail(rt: HostRuntime) -> Result<(), Fail> {
    for call in 4..8 {
        assert!(rt; fails_soundly(rt.alloc(), call)?, "call {call}");
    }
    Ok(())
}
