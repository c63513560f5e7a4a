//! Logs that are switched: the entries after it name the algorithm of their key.

use crate::journals::{
    ENTRY, KEY, MemLog, NEW_LOG, add, add_entry, disk, disk_of, holds, left, log_in, open, opened,
    size, size_of, with_entry,
};
use disk_core::MemDisk;
use issuance_log::{LogError, LogOpenError};
use journal_core::AppendError;
use log_entry::Form;
use mtc_io::{Bytes, Memory};
use std::alloc::Global;
use std::test::Fail;

// The AlgorithmIdentifier of the key. In an entry it stands before the hash of the key.
const ALGORITHM: [u8; 7] = [0x30, 0x05, 0x06, 0x03, 0x2B, 0x65, 0x70];

const HASH_OFFSET: usize = 68;

// The entry that names the algorithm of its key.
fn naming_entry(alloc: Global) -> Result<Bytes, Memory> {
    let mut entry = Bytes::copy_of(alloc, &ENTRY[..HASH_OFFSET])?;
    entry.append(&ALGORITHM)?;
    entry.append(&ENTRY[HASH_OFFSET..])?;
    Ok(entry)
}

// The record of that entry after those of a journal that was cut off before its last commit byte.
fn add_naming_entry(alloc: Global, journal: &mut Bytes) -> Result<(), Memory> {
    journal.append(&[0x01, 0x00, 0x00, 0x00, 0xBB, 0x02, 0x00, 0x8A])?;
    journal.append(naming_entry(alloc)?.as_slice())?;
    journal.append(&[0x00, 0x2C])?;
    journal.append(&KEY)?;
    journal.append(&[0x00])
}

// The record of a switch at this index, below 256, after those of such a journal.
fn add_switch(journal: &mut Bytes, index: u8) -> Result<(), Memory> {
    journal.append(&[0x01, 0x00, 0x00, 0x00, 0x09])?;
    journal.append(&[0x05, 0x00, 0x00, 0x00, 0x00, 0x00, 0x00, 0x00, index])?;
    journal.append(&[0x00])
}

// The journal of the log with one entry, a switch at this index, and the other entry.
fn with_switch(alloc: Global, index: u8) -> Result<Bytes, Memory> {
    let mut wanted = with_entry(alloc)?;
    wanted.truncate(220);
    add_switch(&mut wanted, index)?;
    wanted.truncate(234);
    add_naming_entry(alloc, &mut wanted)?;
    Ok(wanted)
}

fn switch(log: &mut MemLog) -> Result<u64, LogError> {
    log.switch()
}

fn switched(log: &MemLog) -> Option<u64> {
    log.switched()
}

fn form(log: &MemLog) -> Form {
    log.form()
}

// Whether the calls of a log with one entry answer so, in this order.
fn answers(log: &mut MemLog, naming: &[u8]) -> bool {
    switched(log) == None
        && form(log) == Form::One
        && add(log, naming, &KEY) == Err(LogError::NoSuchEntry)
        && switch(log) == Ok(2)
        && switch(log) == Err(LogError::AlreadySwitched(2))
        && form(log) == Form::Two
        && add(log, &ENTRY, &KEY) == Err(LogError::NoSuchEntry)
        && add(log, naming, &KEY) == Ok(2)
        && switch(log) == Err(LogError::AlreadySwitched(2))
}

// The journal after these calls.
fn after_switch(alloc: Global) -> Result<Option<MemDisk>, Memory> {
    let Some(mut log) = log_in(alloc, with_entry(alloc)?.as_slice())? else {
        return Ok(None);
    };
    let naming = naming_entry(alloc)?;
    let reported = answers(&mut log, naming.as_slice());
    let journal = disk_of(log);
    Ok(if reported { Some(journal) } else { None })
}

// Whether a journal is opened as that of a log of three entries that was switched at the last one.
fn is_found_again(alloc: Global, journal: MemDisk) -> bool {
    let Some(log) = opened(alloc, journal) else {
        return false;
    };
    size(&log) == 3 && switched(&log) == Some(2) && form(&log) == Form::Two
}

#[test]
fn a_log_is_switched_once(rt: HostRuntime) -> Result<(), Fail> {
    let journal = after_switch(rt.alloc())?.ok_or("other answers")?;
    let wanted = with_switch(rt.alloc(), 2)?;
    assert!(rt; wanted.len() == 427);
    assert!(rt; holds(&journal, wanted.as_slice()));
    assert!(rt; is_found_again(rt.alloc(), journal));
    Ok(())
}

// The records beside a switch, each after the one before.
enum Beside {
    Switch(u8),
    Entry,
    NamingEntry,
}

// The size of a new log with these records after its first one.
fn size_after(alloc: Global, records: &[Beside]) -> Result<Result<u64, LogOpenError>, Memory> {
    let mut journal = Bytes::copy_of(alloc, &NEW_LOG)?;
    for record in records {
        journal.truncate(journal.len().saturating_sub(1));
        match record {
            Beside::Switch(index) => add_switch(&mut journal, *index)?,
            Beside::Entry => add_entry(&mut journal)?,
            Beside::NamingEntry => add_naming_entry(alloc, &mut journal)?,
        }
    }
    size_of(alloc, journal.as_slice())
}

#[test]
fn records_keep_to_the_switch(rt: HostRuntime) -> Result<(), Fail> {
    let cases: [(&[Beside], Result<u64, LogOpenError>); 9] = [
        (&[Beside::Switch(1)], Ok(1)),
        (&[Beside::Switch(0)], Err(LogOpenError::BadRecord(1))),
        (&[Beside::Switch(2)], Err(LogOpenError::BadRecord(1))),
        (
            &[Beside::Switch(1), Beside::Switch(1)],
            Err(LogOpenError::BadRecord(2)),
        ),
        (&[Beside::Switch(1), Beside::NamingEntry], Ok(2)),
        (
            &[Beside::Switch(1), Beside::Entry],
            Err(LogOpenError::BadRecord(2)),
        ),
        (&[Beside::NamingEntry], Err(LogOpenError::BadRecord(1))),
        (
            &[Beside::Entry, Beside::Switch(2), Beside::NamingEntry],
            Ok(3),
        ),
        (
            &[Beside::Switch(1), Beside::NamingEntry, Beside::Switch(2)],
            Err(LogOpenError::BadRecord(3)),
        ),
    ];
    for (number, (records, wanted)) in cases.iter().enumerate() {
        assert!(rt;
            size_after(rt.alloc(), records)? == *wanted,
            "case {number}"
        );
    }
    Ok(())
}

// Whether each of sixteen crash states of a new log's journal is that of a log which wasn't
// switched, or was switched at its first index.
fn leaves_one_at_most(alloc: Global, journal: &MemDisk) -> Result<bool, Memory> {
    for pick in 0..16 {
        let Some(log) = opened(alloc, left(journal, pick)?) else {
            return Ok(false);
        };
        if !matches!(switched_at_last(log), None | Some(1)) {
            return Ok(false);
        }
    }
    Ok(true)
}

// Where a log was switched that is dropped.
fn switched_at_last(log: MemLog) -> Option<u64> {
    switched(&log)
}

// Whether a log shows no switch, and takes none.
fn is_broken(log: &mut MemLog) -> bool {
    switched(log) == None
        && form(log) == Form::One
        && switch(log) == Err(LogError::Append(AppendError::Broken))
        && switched(log) == None
}

// The log shows no switch and takes none, and a crash leaves none, or the one.
fn shows_the_old_log(alloc: Global, mut log: MemLog) -> Result<bool, Memory> {
    let kept = is_broken(&mut log);
    Ok(leaves_one_at_most(alloc, &disk_of(log))? && kept)
}

// Whether a log of which this call of the disk fails answers that, and stays as it was. Four calls
// open the log, and the next four append the switch.
fn fails_soundly(alloc: Global, call: u64) -> Result<bool, Memory> {
    let Ok(mut log) = open(alloc, disk(alloc, &NEW_LOG, &[call])?) else {
        return Ok(false);
    };
    let failed = switch(&mut log) == Err(LogError::Append(AppendError::Failed));
    Ok(shows_the_old_log(alloc, log)? && failed)
}

#[test]
fn each_call_of_a_switch_may_fail(rt: HostRuntime) -> Result<(), Fail> {
    for call in 4..8 {
        assert!(rt; fails_soundly(rt.alloc(), call)?, "call {call}");
    }
    Ok(())
}

// Whether every crash state after a switch was answered has the switch.
fn is_durable(alloc: Global) -> Result<bool, Memory> {
    let Some(mut log) = log_in(alloc, &NEW_LOG)? else {
        return Ok(false);
    };
    let reported = switch(&mut log) == Ok(1);
    let journal = disk_of(log);
    for pick in 0..16 {
        let Some(log) = opened(alloc, left(&journal, pick)?) else {
            return Ok(false);
        };
        if switched_at_last(log) != Some(1) {
            return Ok(false);
        }
    }
    Ok(reported)
}

#[test]
fn an_answered_switch_is_durable(rt: HostRuntime) -> Result<(), Fail> {
    assert!(rt; is_durable(rt.alloc())?);
    Ok(())
}
