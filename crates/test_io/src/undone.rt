//! What is removed of a journal or a tile file of which a sync fails.

use crate::noted::{Call, Noted, NotedFile, Wanted};
use mtc_files::{Opened, open_journal, open_tiles};
use std::alloc::Global;
use std::fs::{self, File, OpenFile, Permissions};
use std::io;
use std::os::unix::fs::{FileExt, PermissionsExt};
use std::rt::Files;
use std::test::Fail;

// What is asked of an open file: as many bytes as a tile has here, four, are read, bytes are
// written from an offset on, or it is synced.
#[derive(Clone, Copy)]
enum Step {
    Read(u64),
    Write(u64, &'static [u8]),
    Sync,
}

// A file with these bytes is opened, as a journal or as the file of tiles beside one; these steps
// follow, which call the system so, and of these calls one fails or none. The file holds the last
// bytes then.
struct Case {
    bytes: &'static [u8],
    steps: &'static [Step],
    calls: &'static [Call],
    failing: Option<usize>,
    holds: &'static [u8],
}

const JOURNALS: [Case; 7] = [
    // A record is appended, and then its commit byte is opened.
    Case {
        bytes: b"records0",
        steps: &[
            Step::Write(8, b"later0"),
            Step::Sync,
            Step::Write(7, b"1"),
            Step::Sync,
        ],
        calls: &[
            Call::Write(8, 6),
            Call::Sync,
            Call::Read(7, 1),
            Call::Write(7, 1),
            Call::Sync,
        ],
        failing: None,
        holds: b"records1later0",
    },
    // Its sync fails: the file is as before.
    Case {
        bytes: b"records0",
        steps: &[Step::Write(8, b"later0"), Step::Sync],
        calls: &[Call::Write(8, 6), Call::Sync, Call::Cut(8)],
        failing: Some(1),
        holds: b"records0",
    },
    // The sync of its commit byte fails: that is closed again.
    Case {
        bytes: b"records0",
        steps: &[
            Step::Write(8, b"later0"),
            Step::Sync,
            Step::Write(7, b"1"),
            Step::Sync,
        ],
        calls: &[
            Call::Write(8, 6),
            Call::Sync,
            Call::Read(7, 1),
            Call::Write(7, 1),
            Call::Sync,
            Call::Write(7, 1),
            Call::Cut(14),
        ],
        failing: Some(4),
        holds: b"records0later0",
    },
    // The next record's sync fails after both went well: what was synced stays.
    Case {
        bytes: b"records0",
        steps: &[
            Step::Write(8, b"later0"),
            Step::Sync,
            Step::Write(7, b"1"),
            Step::Sync,
            Step::Write(14, b"last0"),
            Step::Sync,
        ],
        calls: &[
            Call::Write(8, 6),
            Call::Sync,
            Call::Read(7, 1),
            Call::Write(7, 1),
            Call::Sync,
            Call::Write(14, 5),
            Call::Sync,
            Call::Cut(14),
        ],
        failing: Some(6),
        holds: b"records1later0",
    },
    // What a killed command left after the end is cut off before a record is written there, and the
    // file keeps its length.
    Case {
        bytes: b"records0remains",
        steps: &[Step::Write(8, b"later0"), Step::Sync],
        calls: &[Call::Cut(8), Call::Cut(15), Call::Write(8, 6), Call::Sync],
        failing: None,
        holds: b"records0later0\0",
    },
    Case {
        bytes: b"records0remains",
        steps: &[Step::Write(8, b"later0"), Step::Sync],
        calls: &[
            Call::Cut(8),
            Call::Cut(15),
            Call::Write(8, 6),
            Call::Sync,
            Call::Cut(8),
        ],
        failing: Some(3),
        holds: b"records0",
    },
    // Where it can't be cut off nothing is written.
    Case {
        bytes: b"records0remains",
        steps: &[Step::Write(8, b"later0")],
        calls: &[Call::Cut(8)],
        failing: Some(0),
        holds: b"records0remains",
    },
];

const TILES: [Case; 6] = [
    // A tile that was read is written over, and one more is added.
    Case {
        bytes: b"AAAABBBBCCCC",
        steps: &[
            Step::Read(8),
            Step::Write(4, b"bbbb"),
            Step::Write(12, b"dddd"),
            Step::Sync,
        ],
        calls: &[
            Call::Read(8, 4),
            Call::Write(4, 4),
            Call::Write(12, 4),
            Call::Sync,
        ],
        failing: None,
        holds: b"AAAAbbbbCCCCdddd",
    },
    // What a killed command left after all that was read is cut off before tiles are written there,
    // and the file keeps its length.
    Case {
        bytes: b"AAAABBBBCCCC",
        steps: &[Step::Read(0), Step::Write(4, b"bbbb"), Step::Sync],
        calls: &[
            Call::Read(0, 4),
            Call::Cut(4),
            Call::Cut(12),
            Call::Write(4, 4),
            Call::Sync,
        ],
        failing: None,
        holds: b"AAAAbbbb\0\0\0\0",
    },
    // What was written since isn't cut off.
    Case {
        bytes: b"AAAABBBBCCCC",
        steps: &[Step::Write(8, b"cccc"), Step::Write(4, b"bbbb"), Step::Sync],
        calls: &[
            Call::Cut(8),
            Call::Cut(12),
            Call::Write(8, 4),
            Call::Write(4, 4),
            Call::Sync,
        ],
        failing: None,
        holds: b"AAAAbbbbcccc",
    },
    // Where it can't be cut off nothing is written.
    Case {
        bytes: b"AAAABBBB",
        steps: &[Step::Read(0), Step::Write(4, b"bbbb")],
        calls: &[Call::Read(0, 4), Call::Cut(4)],
        failing: Some(1),
        holds: b"AAAABBBB",
    },
    // After a sync that fails the file ends before the lowest tile that was written.
    Case {
        bytes: b"AAAABBBBCCCC",
        steps: &[
            Step::Read(8),
            Step::Write(8, b"cccc"),
            Step::Write(4, b"bbbb"),
            Step::Sync,
        ],
        calls: &[
            Call::Read(8, 4),
            Call::Write(8, 4),
            Call::Write(4, 4),
            Call::Sync,
            Call::Cut(4),
        ],
        failing: Some(3),
        holds: b"AAAA",
    },
    // The tiles that were synced before stay.
    Case {
        bytes: b"AAAABBBBCCCC",
        steps: &[
            Step::Read(8),
            Step::Write(4, b"bbbb"),
            Step::Sync,
            Step::Write(12, b"dddd"),
            Step::Sync,
        ],
        calls: &[
            Call::Read(8, 4),
            Call::Write(4, 4),
            Call::Sync,
            Call::Write(12, 4),
            Call::Sync,
            Call::Cut(12),
        ],
        failing: Some(4),
        holds: b"AAAAbbbbCCCC",
    },
];

// The calls by which files of these lengths, none of them with a journal's header, are opened.
const JOURNAL_OPENING: [Call; 8] = [
    Call::Open,
    Call::Lock,
    Call::Inspect,
    Call::Find,
    Call::Sync,
    Call::OpenFolder,
    Call::SyncFolder,
    Call::Inspect,
];

const TILES_OPENING: [Call; 8] = [
    Call::FindLink,
    Call::Open,
    Call::Inspect,
    Call::Lock,
    Call::Inspect,
    Call::FindLink,
    Call::Sync,
    Call::Inspect,
];

fn take(file: &Opened<NotedFile>, steps: &[Step]) -> io::Result<()> {
    for step in steps {
        match *step {
            Step::Read(offset) => file.read_exact_at(&mut [0; 4], offset)?,
            Step::Write(offset, bytes) => file.write_all_at(bytes, offset)?,
            Step::Sync => file.sync_all()?,
        }
    }
    Ok(())
}

// What a case is opened as.
#[derive(Clone, Copy, PartialEq)]
enum Opening {
    Journal,
    Tiles,
}

fn opened<'a, R: Files<File = File>>(
    alloc: Global,
    noted: &Noted<'a, R>,
    opening: Opening,
) -> io::Result<Opened<NotedFile<'a>>> {
    let device = match opening {
        Opening::Journal => open_journal(noted, "mtc_files_undone_test")?,
        Opening::Tiles => open_tiles(alloc, noted, "mtc_files_undone_test")?,
    };
    Ok(device.into_inner())
}

// Whether the steps of a case call the system so after its opening, and fail where a call does.
fn is_called<R: Files<File = File>>(
    files: &R,
    alloc: Global,
    opening: Opening,
    case: &Case,
) -> io::Result<bool> {
    let mut calls = Vec::from_slice(
        alloc,
        match opening {
            Opening::Journal => &JOURNAL_OPENING,
            Opening::Tiles => &TILES_OPENING,
        },
    )?;
    let before = calls.len();
    calls.extend_from_slice(case.calls)?;
    let count = calls.len();
    let mut wanted = Wanted::new(calls);
    wanted.failing = case.failing.map(|number| before.saturating_add(number));
    let noted = Noted {
        files,
        wanted: &wanted,
    };
    let file = opened(alloc, &noted, opening)?;
    let failed = take(&file, case.steps).is_err();
    Ok(failed == case.failing.is_some() && wanted.met() == Some(count))
}

// Whether it does, and the file of this name holds what it is to hold then.
fn is_left<R: Files<File = File> + Alloc>(
    files: &R,
    alloc: Global,
    opening: Opening,
    case: &Case,
) -> io::Result<bool> {
    let path = match opening {
        Opening::Journal => "mtc_files_undone_test",
        Opening::Tiles => "mtc_files_undone_test.tiles",
    };
    fs::write(files, path, case.bytes)?;
    fs::set_permissions(files, path, Permissions::from_mode(0o600))?;
    let called = is_called(files, alloc, opening, case)?;
    let held = fs::read(files, path)?.as_slice() == case.holds;
    fs::remove_file(files, path)?;
    Ok(called && held)
}

#[test]
fn a_failed_sync_leaves_a_journal_without_its_last_record(rt: HostRuntime) -> Result<(), Fail> {
    for (number, case) in JOURNALS.iter().enumerate() {
        let left = is_left(&rt, rt.alloc(), Opening::Journal, case)?;
        assert!(rt; left, "case {number}");
    }
    Ok(())
}

#[test]
fn a_failed_sync_leaves_the_tiles_below_those_that_were_written(
    rt: HostRuntime,
) -> Result<(), Fail> {
    for (number, case) in TILES.iter().enumerate() {
        let left = is_left(&rt, rt.alloc(), Opening::Tiles, case)?;
        assert!(rt; left, "case {number}");
    }
    Ok(())
}
