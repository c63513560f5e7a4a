//! In which order the file system of real files calls the system.

use crate::noted::{Call, Noted, Wanted};
use crate::system::{
    beside_refusal, device_refusal, fresh_refusal, journal_refusal, new_refusal, read_refusal,
};
use disk_core::Disk;
use journal_core::{HEADER, OpenError, Opening, Refused};
use mtc_files::{Access, FileRoom};
use mtc_room::{Room, RoomError};
use std::alloc::{AllocError, Global};
use std::fs::{self, File, Permissions};
use std::io;
use std::os::unix::fs::PermissionsExt;
use std::rt::Files;
use std::test::Fail;

// What a file system is asked for: a journal or a tile file, to write or to read it, or a new
// journal. Or the device alone of a journal, to write or to read it, or of a new one.
#[derive(Clone, Copy)]
pub enum Asked {
    Journal(Access),
    New,
    Tiles(Access),
    Device(Access),
    NewDevice,
}

// Why the file system doesn't open it.
fn refusal<R: Files<File = File>>(
    files: &R,
    asked: Asked,
    name: &str,
    wanted: &Wanted,
) -> Option<RoomError> {
    let noted = Noted { files, wanted };
    match asked {
        Asked::Journal(access) => journal_refusal(&noted, name, access),
        Asked::New => fresh_refusal(&noted, name),
        Asked::Tiles(access) => beside_refusal(&noted, name, access),
        Asked::Device(Access::Write) => device_refusal(&noted, name),
        Asked::Device(Access::Read) => read_refusal(&noted, name),
        Asked::NewDevice => new_refusal(&noted, name),
    }
}

// Why it doesn't, and how many calls that took where each was the one to come.
pub type Ended = (Option<RoomError>, Option<usize>);

pub fn ended<R: Files<File = File>>(files: &R, asked: Asked, name: &str, wanted: &Wanted) -> Ended {
    (refusal(files, asked, name, wanted), wanted.met())
}

// Of so many bytes so many of the first ones are read, or none; and those from an offset on are
// written again, in pieces of which the last one has a size of its own.
pub type End = (u64, usize, u64, u64, usize);

const ENDS: [End; 12] = [
    (0, 0, 0, 0, 0),
    (15, 0, 0, 0, 0),
    (16, 16, 0, 1, 16),
    (22, 22, 0, 1, 22),
    (4095, 22, 0, 1, 4095),
    (4096, 22, 0, 1, 4096),
    (4097, 22, 0, 2, 1),
    (131_094, 22, 0, 33, 22),
    (135_167, 22, 0, 33, 4095),
    (135_168, 22, 0, 33, 4096),
    (135_169, 22, 1, 33, 4096),
    (300_000, 22, 164_832, 33, 4096),
];

pub const SHORT: End = (4097, 22, 0, 2, 1);

pub const LONG: End = (135_169, 22, 1, 33, 4096);

// Puts the reads and the writes of so many pieces after other calls.
fn add_pieces(
    calls: &mut Vec<Call>,
    from: u64,
    pieces: u64,
    last: usize,
) -> Result<(), AllocError> {
    for piece in 0..pieces {
        let offset = from.saturating_add(piece.saturating_mul(4096));
        let size = if piece + 1 == pieces { last } else { 4096 };
        calls.push(Call::Read(offset, size))?;
        calls.push(Call::Write(offset, size))?;
    }
    Ok(())
}

// Puts those for a journal with such an end after them: it is locked, and the name leads to it,
// before its bytes are touched; it is synced before any byte is read; and if it may be written all
// is written before the folder is synced, and its length is asked for at last.
fn add_calls(calls: &mut Vec<Call>, end: End, access: Access) -> Result<(), AllocError> {
    let (_, first, from, pieces, last) = end;
    calls.extend_from_slice(match access {
        Access::Read => &[Call::Find, Call::OpenToRead, Call::Share],
        Access::Write => &[Call::Open, Call::Lock],
    })?;
    calls.extend_from_slice(&[Call::Inspect, Call::Find, Call::Sync])?;
    if first > 0 {
        calls.push(Call::Read(0, first))?;
    }
    if access == Access::Write {
        add_pieces(calls, from, pieces, last)?;
    }
    calls.extend_from_slice(&[Call::OpenFolder, Call::SyncFolder])?;
    if access == Access::Write {
        calls.push(Call::Inspect)?;
    }
    Ok(())
}

pub fn calls_of(alloc: Global, end: End, access: Access) -> Result<Vec<Call>, AllocError> {
    let mut calls = Vec::new(alloc);
    add_calls(&mut calls, end, access)?;
    Ok(calls)
}

// Makes a file of so many bytes that begins with these.
pub fn make<R: Files<File = File>>(
    files: &R,
    alloc: Global,
    path: &str,
    begins: &[u8],
    length: u64,
) -> io::Result<Vec<u8>> {
    let mut bytes = vec![in alloc; 0; length as usize]?;
    for (index, byte) in bytes.iter_mut().enumerate() {
        *byte = if index < begins.len() {
            begins[index]
        } else {
            (index % 251) as u8
        };
    }
    fs::write(files, path, bytes.as_slice())?;
    fs::set_permissions(files, path, Permissions::from_mode(0o600))?;
    Ok(bytes)
}

fn holds<R: Files<File = File> + Alloc>(files: &R, path: &str, bytes: &[u8]) -> io::Result<bool> {
    Ok(fs::read(files, path)?.as_slice() == bytes)
}

// How a journal is opened where the calls for this end are to come, and how many these are.
fn ended_by<R: Files<File = File>>(
    files: &R,
    alloc: Global,
    path: &str,
    end: End,
    access: Access,
) -> Result<(Ended, usize), AllocError> {
    let calls = calls_of(alloc, end, access)?;
    let count = calls.len();
    Ok((
        ended(files, Asked::Journal(access), path, &Wanted::new(calls)),
        count,
    ))
}

// The same of a file of so many bytes that begins with these, and whether it holds them then.
fn ended_and_held<R: Files<File = File> + Alloc>(
    files: &R,
    alloc: Global,
    path: &str,
    begins: &[u8],
    end: End,
    access: Access,
) -> io::Result<((Ended, usize), bool)> {
    let bytes = make(files, alloc, path, begins, end.0)?;
    let ended = ended_by(files, alloc, path, end, access)?;
    Ok((ended, holds(files, path, &bytes)?))
}

// Whether a journal with such an end is opened by these calls, and holds the same bytes then.
fn is_opened_by<R: Files<File = File> + Alloc>(
    files: &R,
    alloc: Global,
    path: &str,
    end: End,
    access: Access,
) -> io::Result<bool> {
    let ((ended, count), held) = ended_and_held(files, alloc, path, &HEADER, end, access)?;
    Ok(ended == (None, Some(count)) && held)
}

#[test]
fn the_end_of_a_journal_is_written_again_after_its_lock(rt: HostRuntime) -> Result<(), Fail> {
    let path = "mtc_files_end_test";
    for end in ENDS {
        for access in [Access::Read, Access::Write] {
            let right = is_opened_by(&rt, rt.alloc(), path, end, access)?;
            assert!(rt; right, "{} bytes", end.0);
        }
    }
    fs::remove_file(&rt, path)?;
    Ok(())
}

#[test]
fn another_file_is_not_written(rt: HostRuntime) -> Result<(), Fail> {
    let path = "mtc_files_other_test";
    let others: [&[u8]; 3] = [
        b"mtc-journal/v2\n\0",
        b"mtc-journal/v1\n\x01",
        b"-----BEGIN TRUST",
    ];
    for begins in others {
        let ((ended, _), held) = ended_and_held(
            &rt,
            rt.alloc(),
            path,
            begins,
            (5000, 22, 0, 0, 0),
            Access::Write,
        )?;
        assert!(rt; ended == (None, Some(9)) && held, "{}", begins[15]);
    }
    fs::remove_file(&rt, path)?;
    Ok(())
}

#[test]
fn a_file_is_moved_off_the_streams(rt: HostRuntime) -> Result<(), Fail> {
    let path = "mtc_files_stream_test";
    make(&rt, rt.alloc(), path, b"tiles", 15)?;
    let calls = [
        Call::Open,
        Call::Move,
        Call::Lock,
        Call::Inspect,
        Call::Find,
        Call::Sync,
        Call::OpenFolder,
        Call::SyncFolder,
        Call::Inspect,
    ];
    let mut wanted = Wanted::new(Vec::from_slice(rt.alloc(), &calls)?);
    wanted.on_stream = true;
    assert!(rt; ended(&rt, Asked::Journal(Access::Write), path, &wanted) == (None, Some(9)));
    fs::remove_file(&rt, path)?;
    Ok(())
}

// A journal's device after its opening, and whether that failed.
fn opened_once<D: Disk>(alloc: Global, disk: D) -> (D, bool) {
    match Opening::begin(alloc, disk) {
        Ok(opening) => (opening.into_disk(), false),
        Err(Refused { disk, why }) => (disk, why == OpenError::Failed),
    }
}

// Whether the opening of a journal syncs it first, of which the file system has written the end
// again, and is refused if that fails.
fn syncs_first<R: Files<File = File>>(
    files: &R,
    alloc: Global,
    path: &str,
    wanted: &Wanted,
) -> bool {
    let noted = Noted { files, wanted };
    let mut room = FileRoom::new(&noted, Access::Write);
    let Ok(disk) = room.disk(path) else {
        return false;
    };
    let (disk, failed) = opened_once(alloc, disk);
    room.keep(path, disk);
    failed
}

// Whether it does where that sync fails, after which the file keeps its length; how many calls were
// made, and how many are to come.
fn sync_fails<R: Files<File = File>>(
    files: &R,
    alloc: Global,
    path: &str,
) -> Result<(bool, Option<usize>, usize), AllocError> {
    let mut calls = calls_of(alloc, SHORT, Access::Write)?;
    let before = calls.len();
    calls.extend_from_slice(&[Call::Sync, Call::Cut(4097)])?;
    let count = calls.len();
    let mut wanted = Wanted::new(calls);
    wanted.failing = Some(before);
    let synced = syncs_first(files, alloc, path, &wanted);
    Ok((synced, wanted.met(), count))
}

#[test]
fn the_opening_syncs_what_was_written_again(rt: HostRuntime) -> Result<(), Fail> {
    let path = "mtc_files_opening_test";
    make(&rt, rt.alloc(), path, &HEADER, 4097)?;
    let (synced, met, count) = sync_fails(&rt, rt.alloc(), path)?;
    assert!(rt; synced && met == Some(count));
    fs::remove_file(&rt, path)?;
    Ok(())
}
