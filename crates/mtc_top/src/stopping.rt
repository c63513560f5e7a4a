//! A stop of the machine, over a file system in memory.

ghost use Rattle.std.specs.Prelude.{◌≡◌, OnErr, OnOk};
ghost use Rattle.std.specs.Option.{IsSomeAnd};
ghost use Rattle.byte_formats.specs.Types.{Text};
ghost use Rattle.disk_core.specs.Memory.{IsFresh, failing_of};
ghost use Rattle.mtc_room.specs.Memory.{disk_in};
ghost use Rattle.mtc_room.specs.declared.memory.MemRoom.{MemRoom};
ghost use Rattle.file_events.specs.Worlds.{all_states, states_between};
ghost use Rattle.mtc_top.specs.Executions.{program};
ghost use Rattle.mtc_top.specs.Stops.{StopsLeaving};

use disk_core::{Disk, MemDisk};
use mtc_io::{Bytes, Memory, Sink};
use mtc_room::{MemRoom, Room};
use tree_core::TreeHash;

/// Stops the machine over a file system in memory, and leaves these bytes of the named file, on a
/// device that fails the calls with these numbers. If memory is refused each file stays.
///
/// It is a stop between two runs if a crash may leave these bytes now, and one crash state alone of
/// each other file. It is a stop in the middle of a run if a crash may have left them at some time
/// since the file system was as that run found it, and so for each other file the one crash state
/// that it may leave now.
pub fn stop_leaving<H: TreeHash, O: Sink, E: Sink>(
    room: &mut MemRoom,
    name: &str,
    left: Bytes,
    failing: Vec<u64>,
) -> Result<(), Memory>
    ensures stops { OnOk result (StopsLeaving H.hash ⟦<MemRoom as Room>⟧ ⟦<MemDisk as Disk>⟧
        O.Sink E.Sink
        (all_states (program H.hash ⟦<MemRoom as Room>⟧ ⟦<MemDisk as Disk>⟧ O.Sink E.Sink) room.old)
        name.now left room.old room.new) }
    ensures cuts { OnOk result ((begun : MemRoom)
        → StopsLeaving H.hash ⟦<MemRoom as Room>⟧ ⟦<MemDisk as Disk>⟧ O.Sink E.Sink
        (λ file. states_between
        (program H.hash ⟦<MemRoom as Room>⟧ ⟦<MemDisk as Disk>⟧ O.Sink E.Sink) file begun room.old)
        name.now left room.old room.new) }
    ensures placed { OnOk result (IsSomeAnd (disk_in room.new name.now)
        (λ d. IsFresh left d × (failing_of d ≡ failing.items))) }
    ensures err { OnErr result ((other : Text)
        → disk_in room.new other ≡ disk_in room.old other) }
    ensures opened { ⟦<MemRoom as Room>⟧.opened room.new ≡ ⟦<MemRoom as Room>⟧.opened room.old }
{
    room.place(name, left, failing)?;
    Ok(())
}
