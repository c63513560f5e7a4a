//! The commands on a log that has a journal: the log is opened over the journal and the file of its
//! tiles and worked on, and both are closed.

ghost use Rattle.std.specs.Prelude.{◌≡◌, ◌≢◌, ◌<◌, ◌+◌, ◌^◌, [], ◌∷◌, true, false};
ghost use Rattle.mtc_command.specs.Answers.{ending_of, tiles_name};
ghost use Rattle.mtc_command.specs.Served.{HasServedBeside, OnlyReadsBeside};
ghost use Rattle.mtc_command.specs.Stored.{StoresBeside};
ghost use Rattle.mtc_command.specs.Valid.{KeepsValid};
ghost use Rattle.mtc_lines.specs.Outputs.{Streams};
ghost use Rattle.mtc_tiled.specs.Headers.{SparesTiles};
ghost use Rattle.mtc_authority.specs.StoredTiles.{HasTilesOf};
ghost use Rattle.mtc_authority.specs.Works.{IsLog, lists_items, log_outcome};
ghost use Rattle.mtc_authority.specs.declared.work.Work.TheVariants.{Tile};

use crate::entries::write_entries;
use crate::opening::{close_log, open_log};
use crate::work::{Work, carry_out};
use mtc_command::{Answer, Stop, tiles_name};
use mtc_io::Sink;
use mtc_lines::Written;
use mtc_room::Room;
use mtc_tiled::OPENING_FRAMES;
use std::alloc::Global;
use tree_core::TreeHash;

/// Opens a journal and the file of its tiles, which is made if it isn't there, opens the log and
/// works on it. Whatever comes of it, the devices are closed. No file of tiles is made beside a
/// file that is no journal, since the journal's header is read first. That the memory for the tiles
/// is taken before any file is opened is read off the program.
pub fn on_log<'a, H: TreeHash, R: Room>(
    alloc: Global,
    room: &mut R,
    journal: &'a str,
    work: Work,
) -> Result<Answer, Stop<'a>>
    requires opened { R.opened room.old + 1 < 2 ^ 32 }
    requires kept { lists_items work ≡ false }
    ensures serves { HasServedBeside R.Room R.Dsk.Disk (journal.now ∷ tiles_name journal.now ∷ [])
        journal.now (tiles_name journal.now)
        (log_outcome H.hash journal.now (R.file room.old journal.now)
        (R.file room.old (tiles_name journal.now)) work)
        room.old room.new (ending_of result) }
    ensures valid { KeepsValid R.Room R.Dsk.Disk (IsLog H.hash) (journal.now ∷ [])
        (log_outcome H.hash journal.now (R.file room.old journal.now)
        (R.file room.old (tiles_name journal.now)) work) room.old room.new }
    ensures only_read { work ≢ Tile
        → OnlyReadsBeside R.Room R.Dsk.Disk room.old room.new (tiles_name journal.now) }
    ensures stores { StoresBeside (HasTilesOf H.hash) (IsLog H.hash) R.Room R.Dsk.Disk
        room.old room.new (journal.now ∷ []) (tiles_name journal.now ∷ [])
        (log_outcome H.hash journal.now (R.file room.old journal.now)
        (R.file room.old (tiles_name journal.now)) work) }
    ensures spares { SparesTiles R.Room room.old room.new journal.now }
{
    let name = tiles_name(alloc, journal)?;
    let frames = work.frames();
    let mut log = open_log::<H, R>(alloc, room, journal, &name, frames)?;
    log.law_sound();
    let answer = carry_out(alloc, journal, &mut log, work);
    close_log::<H, R>(room, journal, &name, log);
    answer
}

/// The same for the works that list items: they write their text to standard output while they read
/// the journal, and hold one item of it.
///
/// Answers whether all of it went out, or standard output failed at it; and why it stopped. A
/// refusal comes before the first byte. Where a file failed or memory was refused, a prefix may be
/// written; what is done with the journal is then what holds with its reply too.
pub fn stream_log<'a, H: TreeHash, R: Room, O: Sink>(
    alloc: Global,
    room: &mut R,
    journal: &'a str,
    work: Work,
    out: &mut O,
) -> Result<Written, Stop<'a>>
    requires opened { R.opened room.old + 1 < 2 ^ 32 }
    requires listed { lists_items work ≡ true }
    ensures streams { Streams O.Sink out.old out.new (HasServedBeside R.Room R.Dsk.Disk
        (journal.now ∷ tiles_name journal.now ∷ []) journal.now (tiles_name journal.now)
        (log_outcome H.hash journal.now (R.file room.old journal.now)
        (R.file room.old (tiles_name journal.now)) work) room.old room.new) result }
    ensures valid { KeepsValid R.Room R.Dsk.Disk (IsLog H.hash) (journal.now ∷ [])
        (log_outcome H.hash journal.now (R.file room.old journal.now)
        (R.file room.old (tiles_name journal.now)) work) room.old room.new }
    ensures only_read { OnlyReadsBeside R.Room R.Dsk.Disk room.old room.new
        (tiles_name journal.now) }
    ensures stores { StoresBeside (HasTilesOf H.hash) (IsLog H.hash) R.Room R.Dsk.Disk
        room.old room.new (journal.now ∷ []) (tiles_name journal.now ∷ [])
        (log_outcome H.hash journal.now (R.file room.old journal.now)
        (R.file room.old (tiles_name journal.now)) work) }
    ensures spares { SparesTiles R.Room room.old room.new journal.now }
{
    let name = tiles_name(alloc, journal)?;
    let mut log = open_log::<H, R>(alloc, room, journal, &name, OPENING_FRAMES)?;
    let written = write_entries(alloc, journal, &mut log, work, out);
    close_log::<H, R>(room, journal, &name, log);
    written
}
