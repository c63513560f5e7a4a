//! A file system in memory.

ghost use Rattle.std.specs.Prelude.{◌≡◌, ◌≢◌, ⊤, ◌+◌, ◌<◌, ◌^◌, [], Option, Result, Ok, Some, None};
ghost use Rattle.std.specs.Prelude.{IfOk, OnOk, OnErr, IsErrOf, IsSome, IfErr, IsErr};
ghost use Rattle.std.specs.Option.{option_copied, IsSomeAnd};
ghost use Rattle.byte_formats.specs.Types.{Text};
ghost use Rattle.mtc_io.specs.Counts.{with_count};
ghost use Rattle.disk_core.specs.Same.{SameDevice};
ghost use Rattle.disk_core.specs.Memory.{bytes_of, failing_of, made_of, faults_of};
ghost use Rattle.disk_core.specs.Memory.{failed_allocations_of, IsFresh};

use crate::room::Room;
use crate::{Cause, RoomError};
use disk_core::{Disk, MemDisk};
use mtc_io::{Bytes, Failed, MemSource, Memory};
use std::alloc::Global;
use std::collections::BTreeMap;

/// A file system whose files stand in memory. The model knows them. Each file has a list of the
/// calls that fail. For its device they are counted over all its openings, and for a source from 0
/// in each opening. Sources and devices are opened as copies. If the file system finds no memory it
/// fails; such failures are counted apart too, its own and those of devices that it closes.
#[derive(Debug)]
pub struct MemRoom {
    alloc: Global,
    files: BTreeMap<String, MemDisk>,
    fresh_failing: Vec<u64>,
    opened: u64,
    faults: u64,
    failed_allocations: u64,
}

// A drop in one step: a derived one is proved field by field wherever a value is dropped.
impl Drop for MemRoom {
    fn drop(self) {
        let MemRoom {
            alloc: _,
            files: _,
            fresh_failing: _,
            opened: _,
            faults: _,
            failed_allocations: _,
        } = self;
    }
}

// A source over a copy of the file's bytes.
fn source_of(alloc: Global, disk: &MemDisk) -> Result<MemSource, Memory>
    ensures { IfOk result (λ s. s ≡ record {
      left = bytes_of disk.now;
      calls = 0;
      failing = failing_of disk.now;
      faults = 0;
    }) }
{
    let bytes = Bytes::copy_of(alloc, disk.bytes())?;
    let failing = Vec::from_slice(alloc, disk.failing())?;
    Ok(MemSource::new(bytes, failing))
}

impl MemRoom {
    ghost use Rattle.mtc_room.specs.Memory.{state, bytes_in, disk_in, count_after};
    ghost use Rattle.mtc_room.specs.Opened.{IsOpenedAs, IsFreshWith};
    ghost use Rattle.mtc_room.specs.Room.{Opens};

    /// A file system without a file. It takes no memory.
    pub fn new(alloc: Global) -> MemRoom
        ensures empty { (name : Text) → (state result).file name ≡ None }
        ensures fresh_failing { (state result).fresh_failing ≡ [] }
        ensures opened { (state result).opened ≡ 0 }
        ensures faults { (state result).faults ≡ 0 }
        ensures failed_allocations { (state result).failed_allocations ≡ 0 }
    {
        MemRoom {
            alloc,
            files: BTreeMap::new(alloc),
            fresh_failing: Vec::new(alloc),
            opened: 0,
            faults: 0,
            failed_allocations: 0,
        }
    }

    /// From here on each file that is made fails the calls with these numbers.
    pub fn fail_fresh(&mut self, failing: Vec<u64>)
        ensures state { state self.new ≡ record (state self.old) { fresh_failing = failing.items } }
        ensures files { self.new.files ≡ self.old.files }
    {
        self.fresh_failing = failing;
    }

    /// Puts a file with these bytes and failing calls instead of any file of that name. It has had
    /// no call, and a crash leaves its bytes. If memory is refused the file system stays as it was.
    pub fn place(&mut self, name: &str, bytes: Bytes, failing: Vec<u64>) -> Result<(), Memory>
        ensures placed { OnOk result (IsSomeAnd (disk_in self.new name.now)
            (λ d. IsFresh bytes d × (failing_of d ≡ failing.items))) }
        ensures others { (other : Text) → other ≢ name.now
            → disk_in self.new other ≡ disk_in self.old other }
        ensures err { OnErr result ((other : Text)
            → disk_in self.new other ≡ disk_in self.old other) }
        ensures fresh_failing { (state self.new).fresh_failing ≡ (state self.old).fresh_failing }
        ensures opened { (state self.new).opened ≡ (state self.old).opened }
        ensures faults { (state self.new).faults ≡ (state self.old).faults }
        ensures failed_allocations { (state self.new).failed_allocations
            ≡ (state self.old).failed_allocations }
    {
        let name = String::from_str(self.alloc, name)?;
        self.files
            .insert(name, MemDisk::over(self.alloc, bytes, failing))?;
        Ok(())
    }

    /// The bytes of a file, or none where there is no such file.
    pub fn bytes(&self, name: &str) -> Option<&[u8]>
        ensures { option_copied result ≡ bytes_in self.now name.now }
    {
        match self.files.get(name) {
            Some(disk) => Some(disk.bytes()),
            None => None,
        }
    }

    /// How often the file system found no memory, with the failed allocations of the devices that
    /// it closed.
    pub fn failed_allocations(&self) -> u64
        ensures { result ≡ (state self.now).failed_allocations }
    {
        self.failed_allocations
    }

    // Counts what was opened, or that memory ran out.
    fn open_one<T>(&mut self, made: Result<T, Memory>) -> Result<T, RoomError>
        requires { self.old.opened < 2 ^ 32 }
        ensures opens { Opens self.old.opened self.new.opened
            self.old.faults self.new.faults result }
        ensures ok { IfOk result (λ it. made ≡ Ok it) }
        ensures err { IfErr result (λ why. (why ≡ RoomError.Failed) × IsErr made) }
        ensures files { self.new.files ≡ self.old.files }
        ensures fresh_failing { self.new.fresh_failing ≡ self.old.fresh_failing }
        ensures counted { self.new.faults ≡ count_after self.old.faults result }
        ensures failed_allocations { self.new.failed_allocations
            ≡ count_after self.old.failed_allocations result }
    {
        match made {
            Ok(opened) => {
                self.opened += 1;
                Ok(opened)
            }
            Err(Memory) => {
                self.faults = self.faults.saturating_add(1);
                self.failed_allocations = self.failed_allocations.saturating_add(1);
                Err(RoomError::Failed)
            }
        }
    }

    // Makes an empty file, and a copy of its device to open.
    fn make(&mut self, name: &str) -> Result<MemDisk, Memory>
        ensures others { (other : Text) → other ≢ name.now
            → disk_in self.new other ≡ disk_in self.old other }
        ensures err { OnErr result (disk_in self.new name.now ≡ disk_in self.old name.now) }
        ensures made { IfOk result (λ d. IsSomeAnd (disk_in self.new name.now)
            (λ e. IsFresh [] e × SameDevice ⟦<MemDisk as Disk>⟧ e d)) }
        ensures listed { OnOk result (IsSomeAnd (disk_in self.new name.now)
            (λ e. failing_of e ≡ self.old.fresh_failing.items)) }
        ensures failing { IfOk result (λ d. failing_of d ≡ self.old.fresh_failing.items) }
        ensures first { IfOk result (λ d. (made_of d ≡ 0) × (faults_of d ≡ 0)) }
        ensures fresh_failing { self.new.fresh_failing ≡ self.old.fresh_failing }
        ensures opened { self.new.opened ≡ self.old.opened }
        ensures faults { self.new.faults ≡ self.old.faults }
        ensures failed_allocations { self.new.failed_allocations ≡ self.old.failed_allocations }
    {
        let name = String::from_str(self.alloc, name)?;
        let failing = Vec::from_slice(self.alloc, &self.fresh_failing)?;
        let disk = MemDisk::new(self.alloc, failing);
        let opened = disk.open_copy()?;
        self.files.insert(name, disk)?;
        Ok(opened)
    }

    // A copy of the file's device to open, or of that of an empty file, which is made.
    fn find_or_make(&mut self, name: &str) -> Result<MemDisk, Memory>
        ensures others { (other : Text) → other ≢ name.now
            → disk_in self.new other ≡ disk_in self.old other }
        ensures err { OnErr result (disk_in self.new name.now ≡ disk_in self.old name.now) }
        ensures kept { IsSome (disk_in self.old name.now)
            → disk_in self.new name.now ≡ disk_in self.old name.now }
        ensures found { IfOk result (λ d. IsSomeAnd (disk_in self.new name.now) (IsOpenedAs d)) }
        ensures made { OnOk result (disk_in self.old name.now ≡ None
            → IsSomeAnd (disk_in self.new name.now)
            (IsFreshWith self.old.fresh_failing.items)) }
        ensures first { IfOk result (λ d. faults_of d ≡ 0) }
        ensures fresh_failing { self.new.fresh_failing ≡ self.old.fresh_failing }
        ensures opened { self.new.opened ≡ self.old.opened }
        ensures faults { self.new.faults ≡ self.old.faults }
        ensures failed_allocations { self.new.failed_allocations ≡ self.old.failed_allocations }
    {
        match self.files.get(name) {
            Some(disk) => disk.open_copy(),
            None => self.make(name),
        }
    }
}

impl Room for MemRoom {
    ghost use Rattle.mtc_room.specs.Memory.{state, bytes_in, disk_in, new_file};
    ghost use Rattle.mtc_room.specs.Memory.{CountsOpening, CountsFinding, IsMadeNew};
    ghost use Rattle.mtc_room.specs.MemoryLaws.{modelled_in, one_disk};
    ghost use Rattle.mtc_room.specs.Room.{Opens, OpensOrFails, Stays, AllStay, OthersStay};
    ghost use Rattle.mtc_room.specs.Room.{LeavesOthers, MakesOnly, IsMadeEmpty, IsFoundOrNew};
    ghost use Rattle.mtc_room.specs.Room.{OpensBytes};
    ghost use Rattle.mtc_room.specs.declared.cause.Cause.TheVariants.{Failed};

    type Src = MemSource;

    type Dsk = MemDisk;

    ghost is_modelled = { λ _. ⊤ };

    ghost leads_to = { λ path. path };

    ghost file = { bytes_in };

    ghost device = { disk_in };

    ghost faults = { λ r. (state r).faults };

    ghost opened = { λ r. (state r).opened };

    ghost why = { λ _. Failed };

    ghost modelled_file = { λ m name _. modelled_in (disk_in m name) };

    ghost one_device = { λ m one other _ same. one_disk m one other same };

    fn source(&mut self, name: &str) -> Result<MemSource, RoomError>
        requires { (state self.old).opened < 2 ^ 32 }
        ensures opens { Opens (state self.old).opened (state self.new).opened
            (state self.old).faults (state self.new).faults result }
        ensures stay { AllStay (bytes_in self.old) (bytes_in self.new)
            (disk_in self.old) (disk_in self.new) }
        ensures is_modelled { ⊤ → ⊤ }
        ensures bytes { IfOk result (λ s. ⊤
            → OpensBytes (bytes_in self.old name.now) (Some s.left)) }
        ensures begins { IfOk result (λ s. s.faults ≡ 0) }
        ensures absent { IsErrOf result RoomError.Absent → ⊤ → bytes_in self.old name.now ≡ None }
        ensures never { IsErrOf result RoomError.Exists → ⊥ }
        ensures listed { IfOk result (λ s. (state self.old).file name.now
            ≡ Some (record { bytes = s.left; failing = s.failing })) }
        ensures counted { IfOk result (λ s. s.calls ≡ 0) }
        ensures counts { CountsOpening (state self.old) (state self.new) result }
    {
        let Some(disk) = self.files.get(name) else {
            return Err(RoomError::Absent);
        };
        let source = source_of(self.alloc, disk);
        self.open_one(source)
    }

    fn disk(&mut self, name: &str) -> Result<MemDisk, RoomError>
        requires { (state self.old).opened < 2 ^ 32 }
        ensures opens { Opens (state self.old).opened (state self.new).opened
            (state self.old).faults (state self.new).faults result }
        ensures stay { AllStay (bytes_in self.old) (bytes_in self.new)
            (disk_in self.old) (disk_in self.new) }
        ensures is_modelled { ⊤ → ⊤ }
        ensures bytes { IfOk result (λ d. ⊤
            → OpensBytes (bytes_in self.old name.now) (Some (bytes_of d))) }
        ensures device { IfOk result (λ d. ⊤
            → IsSomeAnd (disk_in self.old name.now) (λ e. SameDevice ⟦<MemDisk as Disk>⟧ e d)) }
        ensures begins { IfOk result (λ d. faults_of d ≡ 0) }
        ensures absent { IsErrOf result RoomError.Absent → ⊤ → bytes_in self.old name.now ≡ None }
        ensures never { IsErrOf result RoomError.Exists → ⊥ }
        ensures counted { IfOk result (λ d. IsSomeAnd (disk_in self.old name.now)
            (λ e. (failing_of d ≡ failing_of e) × (made_of d ≡ made_of e))) }
        ensures counts { CountsOpening (state self.old) (state self.new) result }
    {
        let Some(disk) = self.files.get(name) else {
            return Err(RoomError::Absent);
        };
        let copy = disk.open_copy();
        self.open_one(copy)
    }

    fn fresh(&mut self, name: &str) -> Result<MemDisk, RoomError>
        requires { (state self.old).opened < 2 ^ 32 }
        ensures opens { Opens (state self.old).opened (state self.new).opened
            (state self.old).faults (state self.new).faults result }
        ensures files { LeavesOthers ⊤ ⊤ (λ path. path) (bytes_in self.old)
            (bytes_in self.new) (disk_in self.old) (disk_in self.new) name.now result }
        ensures only { MakesOnly ⊤ (bytes_in self.old name.now) (disk_in self.old name.now)
            result }
        ensures new { IfOk result (IsMadeEmpty ⟦<MemDisk as Disk>⟧ ⊤ (bytes_in self.new name.now)
            (disk_in self.new name.now)) }
        ensures made { IfOk result (IsMadeNew (state self.old) (state self.new) name.now) }
        ensures counts { CountsOpening (state self.old) (state self.new) result }
    {
        if self.files.contains_key(name) {
            return Err(RoomError::Exists);
        }
        match self.make(name) {
            Ok(disk) => self.open_one(Ok(disk)),
            Err(why) => self.open_one(Err(why)),
        }
    }

    fn scratch(&mut self, name: &str) -> Result<MemDisk, Failed>
        requires { (state self.old).opened < 2 ^ 32 }
        ensures opens { OpensOrFails (state self.old).opened (state self.new).opened
            (state self.old).faults (state self.new).faults result }
        ensures files { LeavesOthers ⊤ ⊤ (λ path. path) (bytes_in self.old)
            (bytes_in self.new) (disk_in self.old) (disk_in self.new) name.now result }
        ensures kept { ⊤ → IsSome (bytes_in self.old name.now)
            → Stays (bytes_in self.old) (bytes_in self.new)
            (disk_in self.old) (disk_in self.new) name.now }
        ensures opened { IfOk result (IsFoundOrNew ⟦<MemDisk as Disk>⟧ ⊤
            (bytes_in self.old name.now) (bytes_in self.new name.now) (disk_in self.new name.now)) }
        ensures counted { IfOk result (λ d. IsSomeAnd (disk_in self.new name.now)
            (λ e. (failing_of d ≡ failing_of e) × (made_of d ≡ made_of e))) }
        ensures listed { OnOk result (bytes_in self.old name.now ≡ None
            → (state self.new).file name.now ≡ Some (new_file (state self.old))) }
        ensures counts { CountsFinding (state self.old) (state self.new) result }
    {
        let made = self.find_or_make(name);
        match self.open_one(made) {
            Ok(disk) => Ok(disk),
            Err(_) => Err(Failed),
        }
    }

    // No other process reaches a file system in memory.
    fn cause(&self) -> Cause {
        Cause::Failed
    }

    fn done(&mut self, source: MemSource)
        requires { 0 < (state self.old).opened }
        ensures out { (state self.new).opened + 1 ≡ (state self.old).opened }
        ensures count { (state self.new).faults ≡ with_count (state self.old).faults source.faults }
        ensures stay { AllStay (bytes_in self.old) (bytes_in self.new)
            (disk_in self.old) (disk_in self.new) }
        ensures is_modelled { ⊤ → ⊤ }
        ensures fresh_failing { (state self.new).fresh_failing ≡ (state self.old).fresh_failing }
        ensures failed_allocations { (state self.new).failed_allocations
            ≡ (state self.old).failed_allocations }
    {
        self.faults = self.faults.saturating_add(source.faults());
        self.opened -= 1;
    }

    fn keep(&mut self, name: &str, disk: MemDisk)
        requires { 0 < (state self.old).opened }
        ensures out { (state self.new).opened + 1 ≡ (state self.old).opened }
        ensures count { (state self.new).faults
            ≡ with_count (state self.old).faults (faults_of disk) }
        ensures others { OthersStay (λ path. path) (bytes_in self.old) (bytes_in self.new)
            (disk_in self.old) (disk_in self.new) name.now }
        ensures is_modelled { ⊤ → ⊤ }
        ensures bytes { ⊤ → IsSome (bytes_in self.old name.now)
            → OpensBytes (bytes_in self.new name.now) (Some (bytes_of disk)) }
        ensures device { ⊤ → IsSome (bytes_in self.old name.now)
            → IsSomeAnd (disk_in self.new name.now) (λ e. SameDevice ⟦<MemDisk as Disk>⟧ disk e) }
        ensures kept { IsSome (bytes_in self.old name.now) → disk_in self.new name.now ≡ Some disk }
        ensures none { ⊤ → bytes_in self.old name.now ≡ None → bytes_in self.new name.now ≡ None }
        ensures fresh_failing { (state self.new).fresh_failing ≡ (state self.old).fresh_failing }
        ensures failed_allocations { (state self.new).failed_allocations
            ≡ with_count (state self.old).failed_allocations (failed_allocations_of disk) }
    {
        self.faults = self.faults.saturating_add(disk.faults());
        self.failed_allocations = self
            .failed_allocations
            .saturating_add(disk.failed_allocations());
        self.opened -= 1;
        if let Some(file) = self.files.get_mut(name) {
            *file = disk;
        }
    }
}
