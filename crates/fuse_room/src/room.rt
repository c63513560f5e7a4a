//! A file system in memory over fuses.

ghost use Rattle.std.specs.Prelude.{◌≡◌, ⊤, ◌+◌, ◌<◌, ◌^◌, None, Some};
ghost use Rattle.std.specs.Prelude.{IfOk, IsErrOf, IsSome};
ghost use Rattle.std.specs.Option.{IsSomeAnd};
ghost use Rattle.mtc_io.specs.Counts.{with_count};

use disk_core::{Disk, Fuse, MemDisk};
use mtc_io::{Bytes, Failed, MemSource};
use mtc_room::{Cause, MemRoom, Room, RoomError};

/// A file system in memory of which one device stops. It opens each device of the file system
/// inside over a fuse: that of one name passes so many calls of `write_at` and `sync` and fails
/// each call from the next one of these on, and the devices of other names pass all. The count
/// begins again with each opening. What a fuse fails doesn't reach the file system inside.
#[derive(Debug)]
pub struct FuseRoom {
    room: MemRoom,
    name: Bytes,
    passes: u64,
    refused: u64,
}

// A drop in one step: a derived one is proved field by field wherever a value is dropped.
impl Drop for FuseRoom {
    fn drop(self) {
        let FuseRoom {
            room: _,
            name: _,
            passes: _,
            refused: _,
        } = self;
    }
}

impl FuseRoom {
    ghost use Rattle.fuse_room.specs.Fused.{fused, inner_room, stopping_name, passes_in};
    ghost use Rattle.fuse_room.specs.Fused.{refused_in, passes_under};

    /// The files of a file system in memory, of which the device with this name passes so many
    /// calls each time that it is opened.
    pub fn new(room: MemRoom, name: Bytes, passes: u64) -> FuseRoom
        ensures room { inner_room result ≡ room }
        ensures name { stopping_name result ≡ name }
        ensures passes { passes_in result ≡ passes }
        ensures refused { refused_in result ≡ 0 }
    {
        FuseRoom {
            room,
            name,
            passes,
            refused: 0,
        }
    }

    /// The count of the calls that its fuses have failed, of the devices that were closed.
    pub fn refused(&self) -> u64
        ensures { result ≡ refused_in self.now }
    {
        self.refused
    }

    /// The file system inside.
    pub fn into_inner(self) -> MemRoom
        ensures { result ≡ inner_room self }
    {
        let FuseRoom {
            room,
            name: _,
            passes: _,
            refused: _,
        } = self;
        room
    }

    // The fuse over a device that was opened under this name.
    fn with_fuse(&self, name: &str, disk: MemDisk) -> Fuse<MemDisk>
        ensures { result ≡ fused disk (passes_under self.now name.now) }
    {
        let passes = if name.as_bytes() == self.name.as_slice() {
            self.passes
        } else {
            u64::MAX
        };
        Fuse::new(disk, passes)
    }
}

impl Room for FuseRoom {
    ghost use Rattle.disk_core.specs.Fuse.{inner_of};
    ghost use Rattle.disk_core.specs.Same.{SameDevice};
    ghost use Rattle.mtc_room.specs.Memory.{state, bytes_in, disk_in};
    ghost use Rattle.mtc_room.specs.Room.{Opens, OpensOrFails, Stays, AllStay, OthersStay};
    ghost use Rattle.mtc_room.specs.Room.{LeavesOthers, MakesOnly, IsMadeEmpty, IsFoundOrNew};
    ghost use Rattle.mtc_room.specs.Room.{OpensBytes};
    ghost use Rattle.mtc_room.specs.declared.cause.Cause.TheVariants.{Failed};
    ghost use Rattle.fuse_room.specs.Fused.{fused, fuse_in, failures, passes_under, inner_room};
    ghost use Rattle.fuse_room.specs.Fused.{StopsAlike};
    ghost use Rattle.fuse_room.specs.FusedLaws.{modelled_fuse, one_fuse};

    type Src = MemSource;

    type Dsk = Fuse<MemDisk>;

    ghost is_modelled = { λ _. ⊤ };

    ghost leads_to = { λ path. path };

    ghost file = { λ r. bytes_in (inner_room r) };

    ghost device = { fuse_in };

    ghost faults = { failures };

    ghost opened = { λ r. (state (inner_room r)).opened };

    ghost why = { λ _. Failed };

    ghost modelled_file = { λ m name _. modelled_fuse (disk_in (inner_room m) name) };

    ghost one_device = { λ m one other _ same. one_fuse m one other same };

    fn source(&mut self, name: &str) -> Result<MemSource, RoomError>
        requires { (state (inner_room self.old)).opened < 2 ^ 32 }
        ensures opens { Opens (state (inner_room self.old)).opened
            (state (inner_room self.new)).opened (failures self.old) (failures self.new) result }
        ensures stay { AllStay (bytes_in (inner_room self.old)) (bytes_in (inner_room self.new))
            (fuse_in self.old) (fuse_in self.new) }
        ensures is_modelled { ⊤ → ⊤ }
        ensures bytes { IfOk result (λ s. ⊤
            → OpensBytes (bytes_in (inner_room self.old) name.now) (Some s.left)) }
        ensures begins { IfOk result (λ s. s.faults ≡ 0) }
        ensures absent { IsErrOf result RoomError.Absent → ⊤
            → bytes_in (inner_room self.old) name.now ≡ None }
        ensures never { IsErrOf result RoomError.Exists → ⊥ }
        ensures alike { StopsAlike self.old self.new }
    {
        self.room.source(name)
    }

    fn disk(&mut self, name: &str) -> Result<Fuse<MemDisk>, RoomError>
        requires { (state (inner_room self.old)).opened < 2 ^ 32 }
        ensures opens { Opens (state (inner_room self.old)).opened
            (state (inner_room self.new)).opened (failures self.old) (failures self.new) result }
        ensures stay { AllStay (bytes_in (inner_room self.old)) (bytes_in (inner_room self.new))
            (fuse_in self.old) (fuse_in self.new) }
        ensures is_modelled { ⊤ → ⊤ }
        ensures bytes { IfOk result (λ f. ⊤ → OpensBytes (bytes_in (inner_room self.old) name.now)
            (⟦<Fuse<MemDisk> as Disk>⟧.contents f)) }
        ensures device { IfOk result (λ f. ⊤ → IsSomeAnd (fuse_in self.old name.now)
            (λ e. SameDevice ⟦<Fuse<MemDisk> as Disk>⟧ e f)) }
        ensures begins { IfOk result (λ f. ⟦<Fuse<MemDisk> as Disk>⟧.faults f ≡ 0) }
        ensures absent { IsErrOf result RoomError.Absent → ⊤
            → bytes_in (inner_room self.old) name.now ≡ None }
        ensures never { IsErrOf result RoomError.Exists → ⊥ }
        ensures alike { StopsAlike self.old self.new }
        ensures as_fuse { IfOk result (λ f. f
            ≡ fused (inner_of f) (passes_under self.old name.now)) }
    {
        let disk = self.room.disk(name)?;
        Ok(self.with_fuse(name, disk))
    }

    fn fresh(&mut self, name: &str) -> Result<Fuse<MemDisk>, RoomError>
        requires { (state (inner_room self.old)).opened < 2 ^ 32 }
        ensures opens { Opens (state (inner_room self.old)).opened
            (state (inner_room self.new)).opened (failures self.old) (failures self.new) result }
        ensures files { LeavesOthers ⊤ ⊤ (λ path. path) (bytes_in (inner_room self.old))
            (bytes_in (inner_room self.new)) (fuse_in self.old) (fuse_in self.new) name.now
            result }
        ensures only { MakesOnly ⊤ (bytes_in (inner_room self.old) name.now)
            (fuse_in self.old name.now) result }
        ensures new { IfOk result (IsMadeEmpty ⟦<Fuse<MemDisk> as Disk>⟧ ⊤
            (bytes_in (inner_room self.new) name.now) (fuse_in self.new name.now)) }
        ensures alike { StopsAlike self.old self.new }
        ensures as_fuse { IfOk result (λ f. f
            ≡ fused (inner_of f) (passes_under self.old name.now)) }
    {
        let disk = self.room.fresh(name)?;
        Ok(self.with_fuse(name, disk))
    }

    fn scratch(&mut self, name: &str) -> Result<Fuse<MemDisk>, Failed>
        requires { (state (inner_room self.old)).opened < 2 ^ 32 }
        ensures opens { OpensOrFails (state (inner_room self.old)).opened
            (state (inner_room self.new)).opened (failures self.old) (failures self.new) result }
        ensures files { LeavesOthers ⊤ ⊤ (λ path. path) (bytes_in (inner_room self.old))
            (bytes_in (inner_room self.new)) (fuse_in self.old) (fuse_in self.new) name.now
            result }
        ensures kept { ⊤ → IsSome (bytes_in (inner_room self.old) name.now)
            → Stays (bytes_in (inner_room self.old)) (bytes_in (inner_room self.new))
            (fuse_in self.old) (fuse_in self.new) name.now }
        ensures opened { IfOk result (IsFoundOrNew ⟦<Fuse<MemDisk> as Disk>⟧ ⊤
            (bytes_in (inner_room self.old) name.now) (bytes_in (inner_room self.new) name.now)
            (fuse_in self.new name.now)) }
        ensures alike { StopsAlike self.old self.new }
        ensures as_fuse { IfOk result (λ f. f
            ≡ fused (inner_of f) (passes_under self.old name.now)) }
    {
        let disk = self.room.scratch(name)?;
        Ok(self.with_fuse(name, disk))
    }

    fn cause(&self) -> Cause {
        self.room.cause()
    }

    fn done(&mut self, source: MemSource)
        requires { 0 < (state (inner_room self.old)).opened }
        ensures out { (state (inner_room self.new)).opened + 1
            ≡ (state (inner_room self.old)).opened }
        ensures count { failures self.new ≡ with_count (failures self.old) source.faults }
        ensures stay { AllStay (bytes_in (inner_room self.old)) (bytes_in (inner_room self.new))
            (fuse_in self.old) (fuse_in self.new) }
        ensures is_modelled { ⊤ → ⊤ }
        ensures alike { StopsAlike self.old self.new }
    {
        self.room.done(source);
    }

    fn keep(&mut self, name: &str, disk: Fuse<MemDisk>)
        requires { 0 < (state (inner_room self.old)).opened }
        ensures out { (state (inner_room self.new)).opened + 1
            ≡ (state (inner_room self.old)).opened }
        ensures count { failures self.new ≡ with_count (failures self.old)
            (⟦<Fuse<MemDisk> as Disk>⟧.faults disk) }
        ensures others { OthersStay (λ path. path) (bytes_in (inner_room self.old))
            (bytes_in (inner_room self.new)) (fuse_in self.old) (fuse_in self.new) name.now }
        ensures is_modelled { ⊤ → ⊤ }
        ensures none { ⊤ → bytes_in (inner_room self.old) name.now ≡ None
            → bytes_in (inner_room self.new) name.now ≡ None }
        ensures bytes { ⊤ → IsSome (bytes_in (inner_room self.old) name.now)
            → OpensBytes (bytes_in (inner_room self.new) name.now)
            (⟦<Fuse<MemDisk> as Disk>⟧.contents disk) }
        ensures device { ⊤ → IsSome (bytes_in (inner_room self.old) name.now)
            → IsSomeAnd (fuse_in self.new name.now)
            (λ e. SameDevice ⟦<Fuse<MemDisk> as Disk>⟧ disk e) }
        ensures alike { StopsAlike self.old self.new }
        ensures kept { IsSome (bytes_in (inner_room self.old) name.now)
            → disk_in (inner_room self.new) name.now ≡ Some (inner_of disk) }
    {
        self.refused = self.refused.saturating_add(disk.refused());
        self.room.keep(name, disk.into_inner());
    }
}
