//! The mirror of a journal: it is opened over the devices of the journal and of the file of its
//! tiles.

ghost use Rattle.std.specs.Prelude.{◌≡◌, ◌<◌, ◌+◌, ◌^◌, ℕ, IfErr, IfOk};
ghost use Rattle.frame_pool.specs.Frames.{HoldsKey};
ghost use Rattle.frame_pool.specs.declared.key.TileKey.{TileKey as Key};
ghost use Rattle.mirror_core.specs.Words.{mirror_disk, mirror_tiles_disk};
ghost use Rattle.mtc_command.specs.Answers.{stop_ending, tiles_name};
ghost use Rattle.mtc_tiled.specs.Openings.{DevicesWereClosed};
ghost use Rattle.mtc_mirror.specs.OpenMirrors.{MirrorWasNotOpened, MirrorWasOpened};
ghost use Rattle.mtc_mirror.specs.Works.{mirror_open_ending};

use frame_pool::Pool;
use mirror_core::{Mirror, MirrorOpenError, MirrorRefused};
use mtc_command::{Reason, Stop, Stopped, refuse_file};
use mtc_room::Room;
use mtc_tiled::{close_devices, open_devices, refuse_open, refuse_tiles};
use std::alloc::Global;
use tree_core::TreeHash;

/// Why a journal isn't opened as a mirror's with its tiles.
pub fn refuse_mirror<'a>(journal: &'a str, why: MirrorOpenError) -> Stop<'a>
    ensures { stop_ending result ≡ mirror_open_ending journal.now why }
{
    match why {
        MirrorOpenError::BadRecord(number) => refuse_file(
            Stopped::BadForm,
            journal,
            Reason::with_number("BadRecord", number),
        ),
        MirrorOpenError::Open(why) => refuse_open(journal, why),
        MirrorOpenError::Tile(why) => refuse_tiles(journal, why),
    }
}

/// Opens a journal and the file of its tiles, and the mirror over them, with a pool whose frames
/// hold no tile. Where no mirror is opened, all is closed again that this call has opened. Other
/// files may be open all the while.
///
/// Errors, in the order of the tests: what [`open_devices`] answers, and what [`Mirror::open`]
/// refuses, as by [`refuse_mirror`].
pub fn open_mirror<'a, H: TreeHash, R: Room>(
    alloc: Global,
    room: &mut R,
    journal: &'a str,
    name: &str,
    pool: Pool,
) -> Result<Mirror<H, R::Dsk, R::Dsk>, Stop<'a>>
    requires opened { R.opened room.old + 1 < 2 ^ 32 }
    requires named { name.now ≡ tiles_name journal.now }
    requires empty { (slot : ℕ) (key : Key) → HoldsKey pool slot key → ⊥ }
    ensures opened { IfOk result
        (MirrorWasOpened R.Room R.Dsk.Disk journal.now room.old room.new) }
    ensures stops { IfErr result (λ stop. MirrorWasNotOpened R.Room R.Dsk.Disk journal.now H.hash
        room.old room.new (stop_ending stop)) }
{
    let (disk, tiles) = open_devices(room, journal, name)?;
    match Mirror::<H, R::Dsk, R::Dsk>::open(alloc, disk, tiles, pool) {
        Ok(mirror) => Ok(mirror),
        Err(MirrorRefused { disk, tiles, why }) => {
            close_devices(room, journal, name, disk, tiles);
            Err(refuse_mirror(journal, why))
        }
    }
}

/// Closes the devices of a mirror, that of its journal last.
pub fn close_mirror<H: TreeHash, R: Room>(
    room: &mut R,
    journal: &str,
    name: &str,
    mirror: Mirror<H, R::Dsk, R::Dsk>,
)
    requires both { 1 < R.opened room.old }
    requires named { name.now ≡ tiles_name journal.now }
    ensures { DevicesWereClosed R.Room R.Dsk.Disk journal.now room.old room.new (mirror_disk mirror)
        (mirror_tiles_disk mirror) }
{
    let (disk, tiles) = mirror.into_disks();
    close_devices(room, journal, name, disk, tiles);
}
