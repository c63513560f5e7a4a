//! The command `mirror-tile`: the tiles that the entries of a mirror fill are stored.

ghost use Rattle.std.specs.Prelude.{◌≡◌, ◌<◌, ◌+◌, ◌^◌, [], ◌∷◌};
ghost use Rattle.mtc_command.specs.Answers.{ending_of, stop_ending, tiles_name};
ghost use Rattle.mtc_tiled.specs.Commands.{HasServedTiled};
ghost use Rattle.mtc_mirror.specs.Commands.{mirror_tile_outcome};
ghost use Rattle.mtc_mirror.specs.MirrorOutcomes.{MayRefuseMirrorTiles, mirror_ending};
ghost use Rattle.mtc_mirror.specs.MirrorOutcomes.{mirror_tile_says};
ghost use Rattle.mtc_mirror.specs.StoredTiles.{HasMirrorTilesOf, StoresMirror};
ghost use Rattle.mtc_mirror.specs.Works.{HasWorkedOnMirror, IsMirror, IsReadyMirror, StaysMirror};

use crate::opening::{close_mirror, open_mirror};
use disk_core::Disk;
use frame_pool::Pool;
use journal_core::AppendError;
use mirror_core::{Mirror, MirrorError};
use mtc_command::{Answer, Reason, Said, Stop, Stopped, refuse, tiles_name};
use mtc_room::Room;
use mtc_tiled::{FRAMES, text_of_tiles};
use std::alloc::Global;
use tree_core::TreeHash;

// A full tile of the lowest level has the hashes of so many entries.
const TILE: u64 = 256;

// Why a mirror that was opened just now stores no tiles.
fn refuse_storing<'a>(journal: &'a str, why: MirrorError) -> Stop<'a>
    requires { MayRefuseMirrorTiles why }
    ensures { stop_ending result ≡ mirror_ending journal.now (tiles_name journal.now) why }
{
    match why {
        MirrorError::NothingNew => refuse(Stopped::NotAllowed, Reason::named("NothingNew")),
        MirrorError::Append(AppendError::Full) => {
            refuse(Stopped::Beyond, Reason::named("JournalFull"))
        }
        MirrorError::Append(AppendError::Failed) => Stop::Room(journal),
        MirrorError::Failed => Stop::Tiles(journal),
        MirrorError::Memory => Stop::Memory,
        _ => unreachable!(),
    }
}

// The work of `mirror-tile M`. The text is made before the tiles are stored, so that nothing takes
// memory after the append. What is then left has the tiles that go with its records: those of the
// last size, and those of the new one if its record is there.
fn tile_on<'a, H: TreeHash, D: Disk>(
    alloc: Global,
    journal: &'a str,
    mirror: &mut Mirror<H, D, D>,
) -> Result<Answer, Stop<'a>>
    requires { IsReadyMirror mirror.old }
    ensures works { HasWorkedOnMirror journal.now mirror_tile_says mirror.old mirror.new
        (ending_of result) }
    ensures valid { StaysMirror H.hash mirror_tile_says mirror.old mirror.new }
    ensures stores { StoresMirror mirror_tile_says mirror.old mirror.new }
{
    mirror.law_unrefused_records_are_taken();
    let text = text_of_tiles(alloc, mirror.size() / TILE * TILE)?;
    match mirror.tile() {
        Ok(_size) => Ok(Answer {
            status: Said::Done,
            text,
        }),
        Err(why) => Err(refuse_storing(journal, why)),
    }
}

/// The command `mirror-tile M`. Whatever comes of it, what it has opened is closed. All memory but
/// that of the opening is taken before the tiles are stored.
pub fn mirror_tile<'a, H: TreeHash, R: Room>(
    alloc: Global,
    room: &mut R,
    journal: &'a str,
) -> Result<Answer, Stop<'a>>
    requires { R.opened room.old + 1 < 2 ^ 32 }
    ensures { HasServedTiled R.Room R.Dsk.Disk journal.now (HasMirrorTilesOf H.hash)
        (IsMirror H.hash) (journal.now ∷ tiles_name journal.now ∷ [])
        (mirror_tile_outcome H.hash journal.now (R.file room.old)) room.old room.new
        (ending_of result) }
{
    let name = tiles_name(alloc, journal)?;
    let pool = Pool::new(alloc, FRAMES)?;
    let mut mirror = open_mirror::<H, R>(alloc, room, journal, &name, pool)?;
    mirror.law_sound();
    let answer = tile_on(alloc, journal, &mut mirror);
    close_mirror::<H, R>(room, journal, &name, mirror);
    answer
}
