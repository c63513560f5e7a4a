//! The journal of a command: one that is there is opened and closed, or a new one is made.

ghost use Rattle.std.specs.Prelude.{◌≡◌, ◌⊎◌, ◌≤◌, ◌<◌, ◌^◌, List, [], IfOk, IfErr, string_bytes};
ghost use Rattle.byte_formats.specs.Types.{Text};
ghost use Rattle.journal_core.specs.Packed.{first_body};
ghost use Rattle.mtc_command.specs.Answers.{stop_ending, ending_of, room_failed, tiles_name};
ghost use Rattle.mtc_command.specs.Endings.{IsNamed};
ghost use Rattle.mtc_command.specs.Served.{ClosesAll, HasServed};
ghost use Rattle.mtc_command.specs.Steps.{Outcome, starts, with_file, with_fresh};
ghost use Rattle.mtc_command.specs.Works.{BeginsOn, HasBegunOn, HasOpened, HasClosed, HasNotOpened};
ghost use Rattle.mtc_command.specs.Works.{HasFailedBeside, HasOpenedBeside, made_ending};

use crate::answer::{Answer, Reason, Said, Stop, Stopped};
use crate::reason::refuse_file;
use disk_core::Disk;
use journal_core::{FirstRecord, Refused, StartError};
use mtc_io::{Bytes, Failed, Memory};
use mtc_room::{Room, RoomError};
use std::alloc::Global;

/// Opens the device of a journal that is there.
///
/// Errors: `Absent` (status 7) where no file has this name, and `Room` where the file system
/// failed.
pub fn open_file<'a, R: Room>(room: &mut R, journal: &'a str) -> Result<R::Dsk, Stop<'a>>
    requires { R.opened room.old < 2 ^ 32 }
    ensures opened { IfOk result (HasOpened R.Room R.Dsk.Disk journal.now room.old room.new) }
    ensures stops { IfErr result (λ stop. (files : List Text) (says : Text → Outcome)
        → IsNamed files journal.now → HasServed R.Room R.Dsk.Disk files journal.now
        (with_file journal.now (R.file room.old journal.now) says)
        room.old room.new (stop_ending stop)) }
    ensures refused { IfErr result (λ _. ClosesAll R.Room room.old room.new []) }
{
    match room.disk(journal) {
        Ok(disk) => Ok(disk),
        Err(RoomError::Absent) => {
            Err(refuse_file(Stopped::Missing, journal, Reason::named("Absent")))
        }
        Err(RoomError::Exists) => unreachable!(),
        Err(RoomError::Failed) => Err(Stop::Room(journal)),
    }
}

/// The name of the file of a journal's tiles.
pub fn tiles_name(alloc: Global, journal: &str) -> Result<String, Memory>
    ensures { IfOk result (λ name. string_bytes name ≡ tiles_name journal.now) }
{
    Ok(format!(in alloc; "{journal}.tiles")?)
}

/// Opens the device of the tiles of a journal, by the name of their file. If that isn't there an
/// empty one is made.
///
/// Errors: `Tiles` where the file system failed, which leaves each file as it was.
pub fn open_tiles<'a, R: Room>(
    room: &mut R,
    journal: &'a str,
    name: &str,
) -> Result<R::Dsk, Stop<'a>>
    requires { R.opened room.old < 2 ^ 32 }
    ensures opened { IfOk result (HasOpenedBeside R.Room R.Dsk.Disk name.now room.old room.new) }
    ensures contents { IfErr result
        (λ stop. stop_ending stop ≡ room_failed (tiles_name journal.now)) }
    ensures refused { IfErr result (λ _. HasFailedBeside R.Room name.now room.old room.new) }
{
    match room.scratch(name) {
        Ok(disk) => Ok(disk),
        Err(Failed) => Err(Stop::Tiles(journal)),
    }
}

/// Closes a journal's device, or that of its tiles.
pub fn close<R: Room>(room: &mut R, journal: &str, disk: R::Dsk)
    requires { 0 < R.opened room.old }
    ensures { HasClosed R.Room R.Dsk.Disk journal.now room.old room.new disk }
{
    room.keep(journal, disk);
}

// Begins the journal on an empty device, and returns the device.
fn begin<D: Disk>(first: FirstRecord, disk: D) -> (D, Result<(), StartError>)
    ensures count { D.faults disk ≤ D.faults result.0 }
    ensures begins { BeginsOn D.Disk (first_body first) disk result.0 result.1 }
{
    match first.start(disk) {
        Ok(journal) => (journal.into_disk(), Ok(())),
        Err(Refused { disk, why }) => (disk, Err(why)),
    }
}

// The answer to what came of making a journal.
fn made_answer<'a>(
    journal: &'a str,
    text: Bytes,
    made: Result<(), StartError>,
) -> Result<Answer, Stop<'a>>
    ensures { ending_of result ≡ made_ending journal.now text made }
{
    match made {
        Ok(()) => Ok(Answer {
            status: Said::Done,
            text,
        }),
        Err(StartError::NotEmpty) => {
            Err(refuse_file(Stopped::Missing, journal, Reason::named("NotEmpty")))
        }
        Err(StartError::Failed) => Err(Stop::Room(journal)),
        Err(StartError::Memory) => Err(Stop::Memory),
    }
}

/// Makes a journal of this first record, under a name that has no file. It takes no memory.
///
/// Errors, in the order of the tests: `Exists` (status 7) where the name has a file, `NotEmpty`
/// (status 7) where the new file has bytes, which never happens where the model knows the files,
/// and `Room` where the file system failed, which may leave a new file without bytes with anything;
/// one with bytes is only read. Each of them, and the answer too, has its cause in the file system
/// or in the device that it opened, over any file system.
pub fn make_journal<'a, R: Room>(
    room: &mut R,
    journal: &'a str,
    first: FirstRecord,
    text: Bytes,
) -> Result<Answer, Stop<'a>>
    requires { R.opened room.old < 2 ^ 32 }
    ensures serves { (files : List Text) → IsNamed files journal.now
        → HasServed R.Room R.Dsk.Disk files journal.now
        (with_fresh journal.now (R.file room.old journal.now) (starts (first_body first) text))
        room.old room.new (ending_of result) }
    ensures begins { HasNotOpened R.Room R.Dsk.Disk journal.now room.old room.new (ending_of result)
        ⊎ HasBegunOn R.Room R.Dsk.Disk journal.now (first_body first) text room.new
        (ending_of result) }
{
    let disk = match room.fresh(journal) {
        Ok(disk) => disk,
        Err(RoomError::Exists) => {
            return Err(refuse_file(Stopped::Missing, journal, Reason::named("Exists")));
        }
        Err(RoomError::Absent) => unreachable!(),
        Err(RoomError::Failed) => return Err(Stop::Room(journal)),
    };
    let (disk, made) = begin(first, disk);
    close(room, journal, disk);
    made_answer(journal, text, made)
}
