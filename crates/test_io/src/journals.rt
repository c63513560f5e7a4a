//! Journals over disks in memory and over a file.

use crate::readings::{End, append, begun, disk_of, empty, is_read, opened, read_all};
use disk_core::{FileDisk, MemDisk};
use journal_core::{AppendError, Journal, OpenError, Refused, StartError};
use mtc_io::{Bytes, Memory};
use std::alloc::Global;
use std::fs;
use std::test::Fail;

type MemJournal = Journal<MemDisk>;

const HEADER: &[u8] = b"mtc-journal/v1\n\0";

// Whether these records are read of a file with these bytes, and the reading ends so.
fn reads(alloc: Global, bytes: Bytes, records: &[u8], end: End) -> Result<bool, Memory> {
    let disk = disk_of(alloc, bytes, &[])?;
    Ok(is_read(&read_all(alloc, disk)?, records, end))
}

// The same of these bytes after a prefix.
fn reads_both(
    alloc: Global,
    prefix: &[u8],
    following: &[u8],
    records: &[u8],
    end: End,
) -> Result<bool, Memory> {
    let mut bytes = Bytes::copy_of(alloc, prefix)?;
    bytes.append(following)?;
    reads(alloc, bytes, records, end)
}

#[test]
fn a_file_is_read_or_refused(rt: HostRuntime) -> Result<(), Fail> {
    let cases: [(&[u8], &[u8], End); 9] = [
        (&[1, 0, 0, 0, 1, 1, 0], &[0, 0, 0, 1, 1], Ok(())),
        (
            &[1, 0, 0, 0, 1, 1],
            &[0, 0, 0, 1, 1],
            Err(OpenError::CutShort(22)),
        ),
        (&[0, 0, 0, 0, 1, 1, 0], &[], Ok(())),
        (&[7, 0, 0, 0, 2, 8, 9, 0, 77], &[0, 0, 0, 2, 8, 9], Ok(())),
        (&[], &[], Err(OpenError::CutShort(16))),
        (&[1, 0, 0, 0], &[], Err(OpenError::CutShort(16))),
        (&[1, 0, 0, 0, 2, 5], &[], Err(OpenError::CutShort(16))),
        (&[1, 0, 0, 0, 0, 5, 0], &[], Err(OpenError::BadLength(16))),
        (&[1, 0, 2, 0, 1], &[], Err(OpenError::BadLength(16))),
    ];
    for (following, records, end) in cases {
        assert!(rt;
            reads_both(rt.alloc(), HEADER, following, records, end)?,
            "for {following:?}"
        );
    }
    let others: [&[u8]; 2] = [b"mtc-journal/v1\n", b"mtc-journal/v1\n\x01\0"];
    for other in others {
        assert!(rt; reads_both(rt.alloc(), other, b"", b"", Err(OpenError::NotJournal))?);
    }
    Ok(())
}

// A journal of one record, on a disk of which these calls fail.
fn begun_on(alloc: Global, failing: &[u64]) -> Result<Option<MemJournal>, Memory> {
    let disk = empty(alloc, failing)?;
    Ok(begun(alloc, disk, &[1]).ok())
}

fn disk_after(journal: MemJournal) -> MemDisk {
    journal.into_disk()
}

// Whether no journal is begun on the disk that a journal left.
fn is_taken(alloc: Global, disk: MemDisk) -> bool {
    match begun(alloc, disk, &[1]) {
        Ok(_) => false,
        Err(Refused { why, .. }) => why == StartError::NotEmpty,
    }
}

// Whether a disk holds the header and these bytes.
fn holds(disk: &MemDisk, following: &[u8]) -> bool {
    let bytes = disk.bytes();
    let (prefix, back) = bytes.split_at(16.min(bytes.len()));
    prefix == HEADER && back == following
}

// What a journal of two records reads at the offset of the second body.
fn second_body(journal: &mut MemJournal) -> Option<[u8; 2]> {
    if journal.end() != 30 {
        return None;
    }
    let mut body = [0; 2];
    journal.read(27, &mut body).ok()?;
    Some(body)
}

// What it reads at the offset of the length of that, as bytes and as a number.
fn second_length(journal: &mut MemJournal) -> Option<[u8; 4]> {
    if journal.end() != 30 {
        return None;
    }
    let mut length = [0; 4];
    journal.read(23, &mut length).ok()?;
    Some(length)
}

fn second_size(journal: &mut MemJournal) -> Option<u32> {
    if journal.end() != 30 {
        return None;
    }
    journal.read_size(23).ok()
}

fn reads_what_was_added(journal: &mut MemJournal) -> bool {
    append(journal, &[0xaa, 0xbb]) == Ok(())
        && second_body(journal) == Some([0xaa, 0xbb])
        && second_length(journal) == Some([0, 0, 0, 2])
        && second_size(journal) == Some(2)
}

#[test]
fn records_are_appended(rt: HostRuntime) -> Result<(), Fail> {
    let mut journal = begun_on(rt.alloc(), &[])?.ok_or("refused")?;
    assert!(rt; reads_what_was_added(&mut journal));
    let disk = disk_after(journal);
    assert!(rt; holds(&disk, &[1, 0, 0, 0, 1, 1, 1, 0, 0, 0, 2, 0xaa, 0xbb, 0]));
    assert!(rt; is_taken(rt.alloc(), disk));
    Ok(())
}

// Whether an append to the journal of one record answers Failed, and the next one Broken.
fn is_broken(journal: &mut MemJournal) -> bool {
    journal.end() == 23
        && append(journal, &[0xaa, 0xbb]) == Err(AppendError::Failed)
        && append(journal, &[0xaa, 0xbb]) == Err(AppendError::Broken)
}

// Whether an append fails if this call of the disk fails, and makes none after it; nor does the
// next append.
fn breaks(alloc: Global, call: u64) -> Result<bool, Memory> {
    let Some(mut journal) = begun_on(alloc, &[call])? else {
        return Ok(false);
    };
    let broken = is_broken(&mut journal);
    Ok(disk_after(journal).made() == call.saturating_add(1) && broken)
}

#[test]
fn a_broken_journal_calls_no_disk(rt: HostRuntime) -> Result<(), Fail> {
    // A start makes five calls, and an append four: the record, its sync, the commit byte, its
    // sync.
    for call in 5..9 {
        assert!(rt; breaks(rt.alloc(), call)?, "call {call}");
    }
    Ok(())
}

// Whether a journal is begun on this file, and takes a record.
fn begins(alloc: Global, file: fs::File) -> bool {
    match begun(alloc, FileDisk::unlocked(file), &[1]) {
        Ok(mut journal) => append(&mut journal, &[0xaa, 0xbb]) == Ok(()),
        Err(_) => false,
    }
}

// Whether a journal of these two records takes another one.
fn takes_one_more(journal: &mut Journal<FileDisk>) -> bool {
    journal.end() == 30 && append(journal, &[0xcc]) == Ok(())
}

// The file of the journal in this file after a third record.
fn gone_on(alloc: Global, file: fs::File) -> Option<FileDisk> {
    let mut journal = opened(alloc, FileDisk::unlocked(file))?;
    let taken = takes_one_more(&mut journal);
    let disk = journal.into_disk();
    if taken { Some(disk) } else { None }
}

// Whether the journal in this file takes another one, and all three are read.
fn continues(alloc: Global, file: fs::File) -> Result<bool, Memory> {
    let wanted = [0, 0, 0, 1, 1, 0, 0, 0, 2, 0xaa, 0xbb, 0, 0, 0, 1, 0xcc];
    match gone_on(alloc, file) {
        Some(disk) => Ok(is_read(&read_all(alloc, disk)?, &wanted, Ok(()))),
        None => Ok(false),
    }
}

#[test]
fn a_file_is_a_journal(rt: HostRuntime) -> Result<(), Fail> {
    let path = "journal_core_test";
    let _ = fs::remove_file(&rt, path);
    let mut how = fs::OpenOptions::new();
    how.read(true).write(true).create(true);
    assert!(rt; begins(rt.alloc(), how.open(&rt, path)?));
    assert!(rt; continues(rt.alloc(), how.open(&rt, path)?)?);
    fs::remove_file(&rt, path)?;
    Ok(())
}
