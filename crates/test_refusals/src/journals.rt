//! Refusals of journals, of the files beside them, and of what begins or opens one.

use crate::shown::shown;
use cosigner_core::CosignerOpenError;
use issuance_log::{LogError, LogOpenError};
use journal_core::{AppendError, CopyError, OpenError, StartError};
use mtc_library::cosigning::CosignerBeginError;
use mtc_library::issuing::LogBeginError;
use mtc_room::RoomError;
use party_history::HistoryError;
use std::test::Fail;
use tile_store::TileError;

#[test]
fn journals_that_begin(rt: HostRuntime) -> Result<(), Fail> {
    let list = [StartError::Memory, StartError::Failed, StartError::NotEmpty];
    assert!(rt; shown(rt.alloc(), &list)?.as_str() == "Memory\nFailed\nNotEmpty\n");
    let list = [
        CosignerBeginError::Start(StartError::NotEmpty),
        CosignerBeginError::Open(CosignerOpenError::BadRecord(0)),
    ];
    assert!(rt; shown(rt.alloc(), &list)?.as_str() == "NotEmpty\nBadRecord 0\n");
    let list = [
        LogBeginError::Start(StartError::NotEmpty),
        LogBeginError::Open(LogOpenError::Tile(TileError::Failed)),
    ];
    assert!(rt; shown(rt.alloc(), &list)?.as_str() == "NotEmpty\nFailed\n");
    Ok(())
}

const OPEN: &str = "NotJournal\nBadLength 17\nCutShort 149\nFailed\nMemory\n";

const OPENINGS: [OpenError; 5] = [
    OpenError::NotJournal,
    OpenError::BadLength(17),
    OpenError::CutShort(149),
    OpenError::Failed,
    OpenError::Memory,
];

#[test]
fn journals_that_are_read(rt: HostRuntime) -> Result<(), Fail> {
    assert!(rt; shown(rt.alloc(), &OPENINGS)?.as_str() == OPEN);
    let cosigners = OPENINGS.map(CosignerOpenError::Open);
    assert!(rt; shown(rt.alloc(), &cosigners)?.as_str() == OPEN);
    let logs = OPENINGS.map(LogOpenError::Open);
    assert!(rt; shown(rt.alloc(), &logs)?.as_str() == OPEN);
    Ok(())
}

#[test]
fn records_and_tiles(rt: HostRuntime) -> Result<(), Fail> {
    let list = [CosignerOpenError::BadRecord(3)];
    assert!(rt; shown(rt.alloc(), &list)?.as_str() == "BadRecord 3\n");
    let tile = TileError::BadTile { level: 1, place: 2 };
    let list = [
        LogOpenError::BadRecord(3),
        LogOpenError::Tile(tile),
        LogOpenError::Tile(TileError::Failed),
    ];
    assert!(rt; shown(rt.alloc(), &list)?.as_str() == "BadRecord 3\nBadTile 1 2\nFailed\n");
    assert!(rt; shown(rt.alloc(), &[tile, TileError::Failed])?.as_str() == "BadTile 1 2\nFailed\n");
    let list = [HistoryError::NotAStep(4), HistoryError::Memory];
    assert!(rt; shown(rt.alloc(), &list)?.as_str() == "NotAStep 4\nMemory\n");
    Ok(())
}

const LOG: &str = "\
Full
TooMany 7
TooLarge
NoSuchEntry
NothingNew
AlreadySwitched 7
Failed
JournalFull
Memory
";

#[test]
fn journals_that_grow(rt: HostRuntime) -> Result<(), Fail> {
    let list = [AppendError::Broken, AppendError::Full, AppendError::Failed];
    assert!(rt; shown(rt.alloc(), &list)?.as_str() == "Broken\nJournalFull\nFailed\n");
    let list = [CopyError::Read, CopyError::Write];
    assert!(rt; shown(rt.alloc(), &list)?.as_str() == "Read\nWrite\n");
    let list = [
        LogError::Full,
        LogError::TooMany(7),
        LogError::TooLarge,
        LogError::NoSuchEntry,
        LogError::NothingNew,
        LogError::AlreadySwitched(7),
        LogError::Failed,
        LogError::Append(AppendError::Full),
        LogError::Memory,
    ];
    assert!(rt; shown(rt.alloc(), &list)?.as_str() == LOG);
    Ok(())
}

#[test]
fn files(rt: HostRuntime) -> Result<(), Fail> {
    let list = [RoomError::Absent, RoomError::Exists, RoomError::Failed];
    assert!(rt; shown(rt.alloc(), &list)?.as_str() == "Absent\nExists\nFailed\n");
    Ok(())
}
