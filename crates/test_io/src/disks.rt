//! Disks in memory, and what a crash leaves of them.

use crate::readings::{disk, empty};
use disk_core::{Call, Change, Disk, Fuse, MemDisk, read_part, write_synced};
use mtc_io::{Failed, Memory};
use std::alloc::Global;
use std::test::Fail;

const EIGHT: &[u8] = b"abcdefgh";

const PIECE: [u8; 8] = *b"WXYZ!?+-";

// Writes after a call for the length.
fn write(disk: &mut MemDisk, offset: u64, bytes: &[u8]) -> Result<(), Failed> {
    if disk.len()? < offset || offset > 1000 || bytes.len() > 1000 {
        return Err(Failed);
    }
    disk.write_at(offset, bytes)
}

fn sync(disk: &mut MemDisk) -> Result<(), Failed> {
    disk.sync()
}

// Whether a crash leaves these bytes, by this pick.
fn leaves(disk: MemDisk, pick: u64, crash_state: &[u8]) -> Result<bool, Memory> {
    Ok(disk.crash(pick)?.bytes() == crash_state)
}

// Whether eight bytes are written from the fourth on, and synced where that is asked.
fn is_written(disk: &mut MemDisk, synced: bool) -> bool {
    write(disk, 4, &PIECE) == Ok(()) && (!synced || sync(disk) == Ok(()))
}

// Whether a crash leaves this crash state by this pick of eight bytes over which eight were
// written.
fn is_left(alloc: Global, pick: u64, synced: bool, crash_state: &[u8]) -> Result<bool, Memory> {
    let mut disk = disk(alloc, EIGHT, &[])?;
    let written = is_written(&mut disk, synced);
    Ok(leaves(disk, pick, crash_state)? && written)
}

#[test]
fn a_crash_leaves_one_of_its_states(rt: HostRuntime) -> Result<(), Fail> {
    let crash_states: [(u64, &[u8]); 9] = [
        (0, b"abcdefgh"),
        (1, b"abcdWXYZ!?+-"),
        (2, b"abcdefgh"),
        (6, b"abcdWXgh"),
        (10, b"abcdWXYZ"),
        (14, b"abcdWXYZ!?"),
        (3, b"abcd\xa8\xa7\xa6\xa5\xde\xc0\xd4\xd2"),
        (7, b"abcdWX\xa6\xa5\xde\xc0\xd4\xd2WX"),
        (15, b"abcdWXYZ!?\xd4\xd2WXYZ!?"),
    ];
    for (pick, crash_state) in crash_states {
        assert!(rt;
            is_left(rt.alloc(), pick, false, crash_state)?,
            "by pick {pick}"
        );
        assert!(rt; is_left(rt.alloc(), pick, true, b"abcdWXYZ!?+-")?);
    }
    Ok(())
}

// Whether a crash leaves this crash state, by this pick, of eight bytes over which these were
// written from the fourth on.
fn is_left_of_four(
    alloc: Global,
    piece: &[u8; 4],
    pick: u64,
    crash_state: &[u8],
) -> Result<bool, Memory> {
    let mut disk = disk(alloc, EIGHT, &[])?;
    let written = write(&mut disk, 4, piece) == Ok(());
    Ok(leaves(disk, pick, crash_state)? && written)
}

#[test]
fn bytes_that_are_written_again_stay(rt: HostRuntime) -> Result<(), Fail> {
    let crash_states: [(u64, &[u8; 4], &[u8]); 6] = [
        (1, b"eXgY", b"abcdeXgY"),
        (3, b"eXgY", b"abcde\xa7g\xa6"),
        (7, b"eXgY", b"abcde\xa7g\xa6e"),
        (15, b"eXgY", b"abcdeXg\xa6eXg"),
        (3, b"efgh", EIGHT),
        (11, b"efgh", b"abcdefghef"),
    ];
    for (pick, piece, crash_state) in crash_states {
        assert!(rt;
            is_left_of_four(rt.alloc(), piece, pick, crash_state)?,
            "by pick {pick}"
        );
    }
    Ok(())
}

// Whether two bytes are written, and a sync between them fails.
fn are_written(disk: &mut MemDisk) -> bool {
    write(disk, 0, b"W") == Ok(()) && sync(disk) == Err(Failed) && write(disk, 1, b"X") == Ok(())
}

// The sync is call 2.
fn is_left_of_two(alloc: Global, pick: u64, crash_state: &[u8]) -> Result<bool, Memory> {
    let mut disk = disk(alloc, EIGHT, &[2])?;
    let written = are_written(&mut disk);
    Ok(leaves(disk, pick, crash_state)? && written)
}

#[test]
fn a_failed_sync_makes_nothing_durable(rt: HostRuntime) -> Result<(), Fail> {
    let crash_states: [(u64, &[u8]); 4] = [
        (0, b"abcdefgh"),
        (1, b"Wbcdefgh"),
        (4, b"aXcdefgh"),
        (5, b"WXcdefgh"),
    ];
    for (pick, crash_state) in crash_states {
        assert!(rt;
            is_left_of_two(rt.alloc(), pick, crash_state)?,
            "by pick {pick}"
        );
    }
    Ok(())
}

// Whether the second call of a disk, a write, fails. It isn't seen, and a crash may leave it all
// the same.
fn fails_to_write(disk: &mut MemDisk) -> bool {
    disk.len() == Ok(0) && disk.write_at(0, b"abcd") == Err(Failed) && disk.bytes().is_empty()
}

fn counts(disk: &MemDisk) -> (u64, u64) {
    (disk.faults(), disk.failed_allocations())
}

fn opened_alike(disk: &MemDisk) -> Result<bool, Memory> {
    let opened = disk.open_copy()?;
    let counted = counts(disk).0 == 1 && counts(&opened) == (0, 0);
    Ok(leaves(opened, 1, b"abcd")? && counted)
}

// Whether a change is a write at the start, of so many bytes and with this answer.
fn is_write(change: &Change, size: usize, ok: bool) -> bool {
    match &change.made.call {
        Call::Write { place, piece } => {
            *place == 0 && piece.len() == size && change.made.ok == ok
        }
        _ => false,
    }
}

fn is_sync(change: &Change) -> bool {
    matches!(change.made.call, Call::Sync) && change.made.ok
}

// The changes of the disk, each with its answer, and the length that was asked before them. What
// was read after them is counted alone.
fn are_noted(disk: &MemDisk) -> bool {
    match disk.changes() {
        [failed, written, synced] => {
            is_write(failed, 4, false)
                && is_write(written, 2, true)
                && is_sync(synced)
                && (failed.only_reads, written.only_reads, synced.only_reads) == (1, 0, 0)
                && disk.made() == 5
        }
        _ => false,
    }
}

// A write that is done, and the last byte of it.
fn last_of_two(disk: &mut MemDisk) -> Result<[u8; 1], Failed> {
    write_synced(disk, 0, b"xy")?;
    let mut last = [0];
    read_part(disk, 1, &mut last)?;
    Ok(last)
}

#[test]
fn a_listed_call_fails(rt: HostRuntime) -> Result<(), Fail> {
    let mut disk = empty(rt.alloc(), &[1])?;
    assert!(rt; fails_to_write(&mut disk));
    assert!(rt; opened_alike(&disk)?);
    assert!(rt; last_of_two(&mut disk) == Ok(*b"y"));
    assert!(rt; are_noted(&disk));
    assert!(rt; counts(&disk) == (1, 0));
    assert!(rt; leaves(disk, 1, b"xy")?);
    Ok(())
}

type Fused = Fuse<MemDisk>;

// Whether nothing is passed on, where two calls were refused before.
fn is_blown(fuse: &mut Fused) -> bool {
    fuse.len() == Err(Failed) && fuse.write_at(0, b"wxyz") == Err(Failed) && fuse.refused() == 4
}

// Whether a fuse that passes one write refuses what comes after it.
fn blows(fuse: &mut Fused) -> bool {
    if fuse.write_at(0, b"abcd") != Ok(()) || fuse.len() != Ok(4) || fuse.refused() != 0 {
        return false;
    }
    fuse.sync() == Err(Failed) && fuse.read_at(0, &mut [0; 4]) == Err(Failed) && is_blown(fuse)
}

// The disk inside the fuse after these calls, if they were refused.
fn after_the_fuse(alloc: Global) -> Option<MemDisk> {
    let mut fuse = Fuse::new(MemDisk::new(alloc, Vec::new(alloc)), 1);
    let blown = blows(&mut fuse);
    let disk = fuse.into_inner();
    if blown { Some(disk) } else { None }
}

#[test]
fn a_fuse_blows_once(rt: HostRuntime) -> Result<(), Fail> {
    let disk = after_the_fuse(rt.alloc()).ok_or("calls were passed")?;
    assert!(rt; (disk.bytes(), disk.made()) == (b"abcd".as_slice(), 2));
    assert!(rt; leaves(disk, 0, b"")?);
    Ok(())
}
