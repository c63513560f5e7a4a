//! The command `mirror-entries`: the first items of a mirror, written while they are read.

ghost use Rattle.std.specs.Prelude.{◌<◌, ◌+◌, ◌^◌, [], ◌∷◌};
ghost use Rattle.mirror_core.specs.Words.{MirrorStays};
ghost use Rattle.mtc_command.specs.Answers.{tiles_name};
ghost use Rattle.mtc_command.specs.Served.{OnlyReadsBeside};
ghost use Rattle.mtc_lines.specs.Outputs.{Streams};
ghost use Rattle.mtc_tiled.specs.Commands.{HasServedTiled};
ghost use Rattle.mtc_mirror.specs.Commands.{mirror_entries_outcome};
ghost use Rattle.mtc_mirror.specs.MirrorOutcomes.{mirror_entries_says};
ghost use Rattle.mtc_mirror.specs.StoredTiles.{HasMirrorTilesOf};
ghost use Rattle.mtc_mirror.specs.Works.{HasWorkedOnMirror, IsMirror, IsReadyMirror};

use crate::opening::{close_mirror, open_mirror};
use disk_core::Disk;
use frame_pool::Pool;
use mirror_core::{Mirror, MirrorError};
use mtc_command::{Reason, Stop, Stopped, refuse, tiles_name};
use mtc_io::Sink;
use mtc_lines::Written;
use mtc_room::Room;
use mtc_tiled::OPENING_FRAMES;
use std::alloc::Global;
use tree_core::TreeHash;

// Writes so many of the first items, while it reads them.
fn entries_on<'a, H: TreeHash, D: Disk, O: Sink>(
    journal: &'a str,
    mirror: &mut Mirror<H, D, D>,
    size: u64,
    out: &mut O,
) -> Result<Written, Stop<'a>>
    requires { IsReadyMirror mirror.old }
    ensures streams { Streams O.Sink out.old out.new (HasWorkedOnMirror journal.now
        (mirror_entries_says size) mirror.old mirror.new) result }
    ensures stays { MirrorStays mirror.old mirror.new }
{
    match mirror.write_items(size, out) {
        Ok(written) => Ok(written),
        Err(MirrorError::Beyond(have)) => {
            Err(refuse(Stopped::NotAllowed, Reason::with_number("Beyond", have)))
        }
        Err(MirrorError::Failed) => Err(Stop::Room(journal)),
        Err(MirrorError::Memory) => Err(Stop::Memory),
        Err(_) => unreachable!(),
    }
}

/// The command `mirror-entries M SIZE`. It writes the items to standard output while it reads the
/// journal, and holds one record of it. Whatever comes of it, what it has opened is closed.
///
/// Answers whether all of it went out, or standard output failed at it; and why it stopped. A
/// refusal comes before the first byte. Where a file failed or memory was refused, a prefix may be
/// written; what is done with the journal is then what holds with its reply too.
pub fn mirror_entries<'a, H: TreeHash, R: Room, O: Sink>(
    alloc: Global,
    room: &mut R,
    journal: &'a str,
    size: u64,
    out: &mut O,
) -> Result<Written, Stop<'a>>
    requires { R.opened room.old + 1 < 2 ^ 32 }
    ensures streams { Streams O.Sink out.old out.new (HasServedTiled R.Room R.Dsk.Disk journal.now
        (HasMirrorTilesOf H.hash) (IsMirror H.hash) (journal.now ∷ tiles_name journal.now ∷ [])
        (mirror_entries_outcome H.hash journal.now size (R.file room.old)) room.old room.new)
        result }
    ensures only_read { OnlyReadsBeside R.Room R.Dsk.Disk room.old room.new
        (tiles_name journal.now) }
{
    let name = tiles_name(alloc, journal)?;
    let pool = Pool::new(alloc, OPENING_FRAMES)?;
    let mut mirror = open_mirror::<H, R>(alloc, room, journal, &name, pool)?;
    mirror.law_sound();
    let written = entries_on(journal, &mut mirror, size, out);
    close_mirror::<H, R>(room, journal, &name, mirror);
    written
}
