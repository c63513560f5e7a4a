//! The devices of a journal and of the file of its tiles.

ghost use Rattle.std.specs.Prelude.{◌≡◌, ◌<◌, ◌+◌, ◌^◌, take, IfErr, IfOk, IfSome, OnOk};
ghost use Rattle.disk_core.specs.Times.{OnlyReads};
ghost use Rattle.journal_core.specs.Format.{header};
ghost use Rattle.journal_core.specs.Opens.{HasReason, IsOfHeader};
ghost use Rattle.mtc_command.specs.Answers.{stop_ending, tiles_name};
ghost use Rattle.mtc_tiled.specs.Headers.{HasReadHeader, IsNoJournal};
ghost use Rattle.mtc_tiled.specs.Openings.{DevicesWereClosed, DevicesWereNotOpened};
ghost use Rattle.mtc_tiled.specs.Openings.{DevicesWereOpened, TilesWereNotOpened};

use crate::refusals::refuse_open;
use disk_core::{Disk, read_len, read_part};
use journal_core::{HEADER, OpenError};
use mtc_command::{Stop, close, open_file, open_tiles};
use mtc_room::Room;

/// So many tiles are held in memory at once by a command that asks for nodes.
pub const FRAMES: usize = 64;

/// So many tiles are held by a command that asks for none: an opening compares tiles one by one.
pub const OPENING_FRAMES: usize = 1;

// Reads the header of a journal, before the file of its tiles is opened.
fn read_header<D: Disk>(disk: &mut D) -> Result<(), OpenError>
    ensures ok { OnOk result (IfSome (D.contents disk.old) (λ bytes. take 16 bytes ≡ header)) }
    ensures fine { OnOk result (D.faults disk.new ≡ D.faults disk.old) }
    ensures reason { IfErr result (λ why. HasReason D.Disk disk.old disk.new 0 why) }
    ensures kind { IfErr result IsOfHeader }
    ensures only_reads { OnlyReads D.Disk disk.old disk.new }
{
    if read_len(disk)? < 16 {
        return Err(OpenError::NotJournal);
    }
    let mut first = [0; 16];
    read_part(disk, 0, &mut first)?;
    if first == HEADER {
        Ok(())
    } else {
        Err(OpenError::NotJournal)
    }
}

// Opens the device of the tiles beside that of a journal whose header was read. Where that fails
// the journal is closed.
fn open_beside<'a, R: Room>(
    room: &mut R,
    journal: &'a str,
    name: &str,
    disk: R::Dsk,
) -> Result<(R::Dsk, R::Dsk), Stop<'a>>
    requires some { 0 < R.opened room.old }
    requires opened { R.opened room.old < 2 ^ 32 }
    requires named { name.now ≡ tiles_name journal.now }
    ensures opened { IfOk result (λ both. (old : R)
        → HasReadHeader R.Room R.Dsk.Disk journal.now old room.old disk
        → (R.is_modelled old → IsNoJournal (R.file old journal.now) → ⊥)
        → DevicesWereOpened R.Room R.Dsk.Disk journal.now old room.new both.0 both.1) }
    ensures stops { IfErr result (λ stop. (old : R)
        → HasReadHeader R.Room R.Dsk.Disk journal.now old room.old disk
        → (R.is_modelled old → IsNoJournal (R.file old journal.now) → ⊥)
        → TilesWereNotOpened R.Room R.Dsk.Disk journal.now old room.new (stop_ending stop)) }
{
    match open_tiles(room, journal, name) {
        Ok(tiles) => Ok((disk, tiles)),
        Err(stop) => {
            close(room, journal, disk);
            Err(stop)
        }
    }
}

/// Opens the devices of a journal and of the file of its tiles, which is made if it isn't there. A
/// file that is no journal is refused, and no other file is opened then: no file of tiles is made
/// beside it. Where they aren't opened, all is closed again that this call has opened, the journal
/// last: so whoever has the journal has the tiles. Other files may be open all the while.
///
/// Errors, in the order of the tests: what [`open_file`] answers of the journal; why its header is
/// refused, as by [`refuse_open`]; and `Tiles` where the file system failed at the file of the
/// tiles.
pub fn open_devices<'a, R: Room>(
    room: &mut R,
    journal: &'a str,
    name: &str,
) -> Result<(R::Dsk, R::Dsk), Stop<'a>>
    requires opened { R.opened room.old + 1 < 2 ^ 32 }
    requires named { name.now ≡ tiles_name journal.now }
    ensures opened { IfOk result (λ both.
        DevicesWereOpened R.Room R.Dsk.Disk journal.now room.old room.new both.0 both.1) }
    ensures stops { IfErr result (λ stop.
        DevicesWereNotOpened R.Room R.Dsk.Disk journal.now room.old room.new (stop_ending stop)) }
{
    let mut disk = open_file(room, journal)?;
    match read_header(&mut disk) {
        Ok(()) => open_beside(room, journal, name, disk),
        Err(why) => {
            close(room, journal, disk);
            Err(refuse_open(journal, why))
        }
    }
}

/// Closes both devices, that of the journal last.
pub fn close_devices<R: Room>(room: &mut R, journal: &str, name: &str, disk: R::Dsk, tiles: R::Dsk)
    requires both { 1 < R.opened room.old }
    requires named { name.now ≡ tiles_name journal.now }
    ensures { DevicesWereClosed R.Room R.Dsk.Disk journal.now room.old room.new disk tiles }
{
    close(room, name, tiles);
    close(room, journal, disk);
}
