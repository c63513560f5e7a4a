//! Programs that are killed: the clauses are the laws, and the functions do nothing.

ghost use Rattle.std.specs.Prelude.{◌≡◌, false};
ghost use Rattle.byte_formats.specs.Types.{Text};
ghost use Rattle.mtc_words.specs.Names.{is_tiles_name};
ghost use Rattle.mtc_top.specs.Executions.{owner, program};
ghost use Rattle.mtc_laws.specs.TileLaws.{tiled_journal};
ghost use Rattle.mtc_laws.specs.Killed.{DiesOverFuses, JournalsMayBreak, TiledJournalsMayBreak};

use disk_core::{Disk, Fuse, MemDisk};
use fuse_room::FuseRoom;
use mtc_io::Sink;
use mtc_room::{MemRoom, Room};
use tree_core::TreeHash;

/// Whatever the status of a run, it leaves of each journal what an execution supposes that a
/// program leaves that is killed: what a run leaves that broke off. It does so of the journal of a
/// log or a mirror with the file of its tiles, at once. So over files that stop taking calls at
/// some call of the run, a kill at that call leaves it.
pub fn law_runs_may_be_killed<H: TreeHash, R: Room, O: Sink, E: Sink>()
    ensures journals { JournalsMayBreak H.hash (program H.hash R.Room R.Dsk.Disk O.Sink E.Sink) }
    ensures logs { TiledJournalsMayBreak H.hash (program H.hash R.Room R.Dsk.Disk O.Sink E.Sink) }
{}

/// A program that is killed at a call of a device makes no further call, as if the device had
/// stopped. So it is a run over files in memory of which a device stops after so many calls. The
/// file systems inside, before that run and after it, are those before and after such a kill in an
/// execution, of a journal alone and with the file of its tiles.
pub fn law_killed_runs_have_died<H: TreeHash, O: Sink, E: Sink>()
    ensures journals { (name : Text) → is_tiles_name name ≡ false → DiesOverFuses H.hash
        ⟦<FuseRoom as Room>⟧ ⟦<Fuse<MemDisk> as Disk>⟧ ⟦<MemRoom as Room>⟧ ⟦<MemDisk as Disk>⟧
        O.Sink E.Sink
        (owner H.hash (program H.hash ⟦<MemRoom as Room>⟧ ⟦<MemDisk as Disk>⟧ O.Sink E.Sink) name) }
    ensures logs { (name : Text) → is_tiles_name name ≡ false → DiesOverFuses H.hash
        ⟦<FuseRoom as Room>⟧ ⟦<Fuse<MemDisk> as Disk>⟧ ⟦<MemRoom as Room>⟧ ⟦<MemDisk as Disk>⟧
        O.Sink E.Sink
        (tiled_journal H.hash (program H.hash ⟦<MemRoom as Room>⟧ ⟦<MemDisk as Disk>⟧ O.Sink E.Sink)
        name) }
{
    law_runs_may_be_killed::<H, FuseRoom, O, E>();
}
