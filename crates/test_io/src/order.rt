//! Which calls a journal and a tile file are opened and made by, and what comes of one that fails.

use crate::ends::{Asked, LONG, SHORT, calls_of, ended, make};
use crate::noted::{Call, Wanted};
use journal_core::HEADER;
use mtc_files::Access;
use mtc_room::RoomError;
use std::alloc::{AllocError, Global};
use std::fs::{self, File};
use std::io::{self, ErrorKind};
use std::rt::Files;
use std::test::Fail;

// The calls for a new journal, for a new tile file, for an empty one and for one that is there.
// Where these are written their length is asked for after that.
const NEW: [Call; 9] = [
    Call::FindLink,
    Call::Create,
    Call::Inspect,
    Call::Lock,
    Call::FindLink,
    Call::Inspect,
    Call::Sync,
    Call::OpenFolder,
    Call::SyncFolder,
];

const NEW_TILES: [Call; 8] = [
    Call::FindLink,
    Call::Create,
    Call::Lock,
    Call::FindLink,
    Call::Inspect,
    Call::Sync,
    Call::OpenFolder,
    Call::SyncFolder,
];

const EMPTY_TILES: [Call; 7] = [
    Call::FindLink,
    Call::Open,
    Call::Inspect,
    Call::Lock,
    Call::Inspect,
    Call::FindLink,
    Call::Sync,
];

const TILES: [Call; 9] = [
    Call::FindLink,
    Call::Open,
    Call::Inspect,
    Call::Read(0, 22),
    Call::Lock,
    Call::Inspect,
    Call::FindLink,
    Call::Sync,
    Call::Read(0, 22),
];

fn calls_to_write(alloc: Global, calls: &[Call]) -> Result<Vec<Call>, AllocError> {
    let mut writing = Vec::from_slice(alloc, calls)?;
    writing.push(Call::Inspect)?;
    Ok(writing)
}

// What a call is where the file is only read. What isn't a plain file is looked for before that.
fn to_read(call: Call) -> Call {
    match call {
        Call::Open => Call::OpenToRead,
        Call::Lock => Call::Share,
        other => other,
    }
}

fn calls_to_read(alloc: Global, calls: &[Call]) -> Result<Vec<Call>, AllocError> {
    let mut reading = Vec::new(alloc);
    for call in calls {
        if *call == Call::Open {
            reading.push(Call::Find)?;
        }
        reading.push(to_read(*call))?;
    }
    Ok(reading)
}

fn first_bytes(asked: Asked) -> &'static [u8] {
    match asked {
        Asked::Journal(_) | Asked::Device(_) => &HEADER,
        _ => &[],
    }
}

// Removes a file, or makes one of so many bytes, which is a journal where one is asked for.
fn prepare<R: Files<File = File>>(
    files: &R,
    alloc: Global,
    asked: Asked,
    path: &str,
    length: Option<u64>,
) -> io::Result<()> {
    let _ = fs::remove_file(files, path);
    match length {
        Some(length) => {
            make(files, alloc, path, first_bytes(asked), length)?;
            Ok(())
        }
        None => Ok(()),
    }
}

// What is asked for, of a file of so many bytes or of none; the calls for it, and the number of the
// one that finds the file by its name after the lock.
type Case = (Asked, Option<u64>, Vec<Call>, usize);

fn cases_to_write(alloc: Global) -> Result<[Case; 8], AllocError> {
    let write = Access::Write;
    let short = calls_of(alloc, SHORT, write)?;
    let again = calls_of(alloc, SHORT, write)?;
    let long = calls_of(alloc, LONG, write)?;
    let empty_tiles = calls_to_write(alloc, &EMPTY_TILES)?;
    Ok([
        (Asked::Journal(write), Some(4097), short, 3),
        (Asked::Journal(write), Some(135_169), long, 3),
        (Asked::New, None, calls_to_write(alloc, &NEW)?, 4),
        (
            Asked::Tiles(write),
            None,
            calls_to_write(alloc, &NEW_TILES)?,
            3,
        ),
        (Asked::Tiles(write), Some(0), empty_tiles, 5),
        (
            Asked::Tiles(write),
            Some(8192),
            calls_to_write(alloc, &TILES)?,
            6,
        ),
        (Asked::Device(write), Some(4097), again, 3),
        (Asked::NewDevice, None, calls_to_write(alloc, &NEW)?, 4),
    ])
}

fn cases_to_read(alloc: Global) -> Result<[Case; 5], AllocError> {
    let read = Access::Read;
    let short = calls_of(alloc, SHORT, read)?;
    let again = calls_of(alloc, SHORT, read)?;
    let empty_tiles = calls_to_read(alloc, &EMPTY_TILES)?;
    Ok([
        (Asked::Journal(read), Some(4097), short, 4),
        (
            Asked::Tiles(read),
            None,
            calls_to_read(alloc, &NEW_TILES)?,
            3,
        ),
        (Asked::Tiles(read), Some(0), empty_tiles, 6),
        (
            Asked::Tiles(read),
            Some(8192),
            calls_to_read(alloc, &TILES)?,
            7,
        ),
        (Asked::Device(read), Some(4097), again, 4),
    ])
}

// How a case ends of which the call of this number fails, or finds another file.
fn tried<R: Files<File = File>>(
    files: &R,
    alloc: Global,
    case: &Case,
    failing: Option<usize>,
    elsewhere: Option<usize>,
) -> io::Result<(Option<RoomError>, Option<usize>)> {
    let path = "mtc_files_order_test";
    let (asked, length, calls, _) = case;
    prepare(files, alloc, *asked, path, *length)?;
    let mut wanted = Wanted::new(Vec::from_slice(alloc, calls)?);
    wanted.failing = failing;
    wanted.elsewhere = elsewhere;
    let ended = ended(files, *asked, path, &wanted);
    let _ = fs::remove_file(files, path);
    Ok(ended)
}

// Whether any other failure of this call is passed over than that a name is too long.
fn is_asked_for_its_length(asked: Asked, number: usize) -> bool {
    matches!(asked, Asked::New | Asked::NewDevice) && number == 0
}

// Whether a case makes its calls, and none after one that fails, or that finds another file by the
// name. A new file's node is asked for after its name's.
fn is_as_modelled<R: Files<File = File>>(
    files: &R,
    alloc: Global,
    case: &Case,
) -> io::Result<bool> {
    let (asked, _, calls, found) = case;
    let done = (None, Some(calls.len()));
    let mut right = tried(files, alloc, case, None, None)? == done;
    for failing in 0..calls.len() {
        let reported = if is_asked_for_its_length(*asked, failing) {
            done
        } else {
            (Some(RoomError::Failed), Some(failing.saturating_add(1)))
        };
        right = right && tried(files, alloc, case, Some(failing), None)? == reported;
    }
    let following = if calls.contains(&Call::Create) { 2 } else { 1 };
    let reported = (
        Some(RoomError::Failed),
        Some(found.saturating_add(following)),
    );
    Ok(right && tried(files, alloc, case, None, Some(*found))? == reported)
}

#[test]
fn the_room_calls_the_system_in_its_order(rt: HostRuntime) -> Result<(), Fail> {
    for case in &cases_to_write(rt.alloc())? {
        let right = is_as_modelled(&rt, rt.alloc(), case)?;
        assert!(rt; right, "{} calls to write", case.2.len());
    }
    for case in &cases_to_read(rt.alloc())? {
        let right = is_as_modelled(&rt, rt.alloc(), case)?;
        assert!(rt; right, "{} calls to read", case.2.len());
    }
    Ok(())
}

// How the opening ends of a journal, or of a tile file that isn't there, of which the call of this
// number fails in this way.
fn ended_with<R: Files<File = File>>(
    files: &R,
    alloc: Global,
    case: &Case,
    failing: usize,
    failure: ErrorKind,
) -> io::Result<(Option<RoomError>, Option<usize>)> {
    let path = "mtc_files_passed_test";
    let (asked, length, calls, _) = case;
    prepare(files, alloc, *asked, path, *length)?;
    let mut wanted = Wanted::new(Vec::from_slice(alloc, calls)?);
    wanted.failing = Some(failing);
    wanted.failure = failure;
    let ended = ended(files, *asked, path, &wanted);
    let _ = fs::remove_file(files, path);
    Ok(ended)
}

// Whether a sync that fails so, of the journal or of its folder, stops only who may write it.
fn is_passed_by_readers<R: Files<File = File>>(
    files: &R,
    alloc: Global,
    failure: ErrorKind,
) -> io::Result<bool> {
    let mut right = true;
    for access in [Access::Read, Access::Write] {
        let calls = calls_of(alloc, SHORT, access)?;
        let count = calls.len();
        // The sync of the folder is the last call but for the length, which a writer asks for.
        let following = if access == Access::Read { 1 } else { 2 };
        let case = (Asked::Journal(access), Some(4097), calls, 3);
        // A reader also looks whether the file is a plain one.
        let synced = if access == Access::Read { 5 } else { 4 };
        for failing in [synced, count.saturating_sub(following)] {
            let wanted = match access {
                Access::Read => (None, Some(count)),
                Access::Write => (Some(RoomError::Failed), Some(failing.saturating_add(1))),
            };
            right = right && ended_with(files, alloc, &case, failing, failure)? == wanted;
        }
    }
    Ok(right)
}

#[test]
fn a_reader_passes_where_a_file_system_has_no_sync(rt: HostRuntime) -> Result<(), Fail> {
    for failure in [ErrorKind::InvalidInput, ErrorKind::ReadOnlyFilesystem] {
        assert!(rt; is_passed_by_readers(&rt, rt.alloc(), failure)?);
    }
    Ok(())
}

// Whether a reader reads an empty file where a tile file isn't there and can't be made for this
// reason, and whoever may write it fails.
fn is_missed_by_readers<R: Files<File = File>>(
    files: &R,
    alloc: Global,
    failure: ErrorKind,
) -> io::Result<bool> {
    let reads = (
        Asked::Tiles(Access::Read),
        None,
        calls_to_read(alloc, &NEW_TILES)?,
        3,
    );
    let writes = (
        Asked::Tiles(Access::Write),
        None,
        calls_to_write(alloc, &NEW_TILES)?,
        3,
    );
    Ok(
        ended_with(files, alloc, &reads, 1, failure)? == (None, Some(2))
            && ended_with(files, alloc, &writes, 1, failure)? == (Some(RoomError::Failed), Some(2)),
    )
}

#[test]
fn a_reader_needs_no_folder_that_can_be_written(rt: HostRuntime) -> Result<(), Fail> {
    for failure in [ErrorKind::PermissionDenied, ErrorKind::ReadOnlyFilesystem] {
        assert!(rt; is_missed_by_readers(&rt, rt.alloc(), failure)?);
    }
    Ok(())
}

// How a new journal is made of which the call of this number finds the file open to others.
fn ended_open_to_others<R: Files<File = File>>(
    files: &R,
    alloc: Global,
    asked: Asked,
    number: usize,
) -> io::Result<(Option<RoomError>, Option<usize>)> {
    let path = "mtc_files_modes_test";
    prepare(files, alloc, asked, path, None)?;
    let mut wanted = Wanted::new(Vec::from_slice(alloc, &NEW)?);
    wanted.open_to_others = Some(number);
    let ended = ended(files, asked, path, &wanted);
    let _ = fs::remove_file(files, path);
    Ok(ended)
}

// A file system without modes lets everybody read what was made for its owner alone.
#[test]
fn no_journal_begins_in_a_file_that_is_open_to_others(rt: HostRuntime) -> Result<(), Fail> {
    for asked in [Asked::New, Asked::NewDevice] {
        let ended = ended_open_to_others(&rt, rt.alloc(), asked, 2)?;
        assert!(rt; ended == (Some(RoomError::Failed), Some(3)));
    }
    Ok(())
}
