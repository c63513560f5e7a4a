//! The command `tile-anew`: the tiles that a log has recorded are written again, into a file that
//! is lost, cut or changed.

ghost use Rattle.std.specs.Prelude.{◌≡◌, ◌⊎◌, ◌<◌, ◌+◌, ◌^◌, [], ◌∷◌, Err, Ok};
ghost use Rattle.mtc_command.specs.Answers.{ending_of, no_memory, tiles_name};
ghost use Rattle.mtc_command.specs.Served.{HasServedBeside};
ghost use Rattle.mtc_command.specs.Stored.{StoresBeside};
ghost use Rattle.mtc_command.specs.Valid.{KeepsValid};
ghost use Rattle.mtc_tiled.specs.Headers.{SparesTiles};
ghost use Rattle.mtc_authority.specs.StoredTiles.{HasTilesOf, MakesTilesWhole};
ghost use Rattle.mtc_authority.specs.TileOutcome.{rebuilt_outcome};
ghost use Rattle.mtc_authority.specs.Works.{IsLog, rebuilt_ending};

use crate::opening::refuse_log;
use frame_pool::Pool;
use issuance_log::{LogOpenError, Rebuilt, rebuild_tiles};
use mtc_command::{Answer, Reason, Said, Stop, Stopped, refuse, tiles_name};
use mtc_room::Room;
use mtc_tiled::{FRAMES, close_devices, open_devices, text_of_tiles};
use std::alloc::Global;
use tree_core::TreeHash;

// The answer to what came of writing the tiles: the size up to which they are, 0 where the log has
// recorded none.
fn rebuilt_answer<'a>(
    alloc: Global,
    journal: &'a str,
    written: Result<u64, LogOpenError>,
) -> Result<Answer, Stop<'a>>
    ensures { (ending_of result ≡ rebuilt_ending journal.now written)
        ⊎ (ending_of result ≡ no_memory) }
{
    match written {
        Ok(0) => Err(refuse(Stopped::NotAllowed, Reason::named("NothingNew"))),
        Ok(size) => Ok(Answer {
            status: Said::Done,
            text: text_of_tiles(alloc, size)?,
        }),
        Err(why) => Err(refuse_log(journal, why)),
    }
}

/// `tile-anew J`: writes the tiles of which the journal's last record of tiles speaks again, from
/// the first one on that their file doesn't have, and makes them durable. No record is added.
///
/// Answers `NothingNew` (status 4) where there is no record of tiles. Other refusals are those of
/// any command on a log, but for a bad tile. A refusal leaves nothing new of the file, which may be
/// made empty. Where the command did its work, each crash state of the file has the tiles, whatever
/// it had before, and its bytes after them stay.
pub fn tile_anew<'a, H: TreeHash, R: Room>(
    alloc: Global,
    room: &mut R,
    journal: &'a str,
) -> Result<Answer, Stop<'a>>
    requires { R.opened room.old + 1 < 2 ^ 32 }
    ensures serves { HasServedBeside R.Room R.Dsk.Disk (journal.now ∷ tiles_name journal.now ∷ [])
        journal.now (tiles_name journal.now)
        (rebuilt_outcome H.hash journal.now (R.file room.old)) room.old room.new
        (ending_of result) }
    ensures valid { KeepsValid R.Room R.Dsk.Disk (IsLog H.hash) (journal.now ∷ [])
        (rebuilt_outcome H.hash journal.now (R.file room.old)) room.old room.new }
    ensures stores { StoresBeside (HasTilesOf H.hash) (IsLog H.hash) R.Room R.Dsk.Disk
        room.old room.new (journal.now ∷ []) (tiles_name journal.now ∷ [])
        (rebuilt_outcome H.hash journal.now (R.file room.old)) }
    ensures spares { SparesTiles R.Room room.old room.new journal.now }
    ensures whole { MakesTilesWhole H.hash R.Room R.Dsk.Disk room.old room.new journal.now
        (ending_of result) }
{
    let name = tiles_name(alloc, journal)?;
    let pool = Pool::new(alloc, FRAMES)?;
    let (disk, tiles) = open_devices(room, journal, &name)?;
    let Rebuilt {
        disk,
        tiles,
        answer,
    } = rebuild_tiles::<H, R::Dsk, R::Dsk>(alloc, disk, tiles, pool);
    close_devices(room, journal, &name, disk, tiles);
    rebuilt_answer(alloc, journal, answer)
}
