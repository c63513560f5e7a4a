//! What the program asks of the files that it may reach.

ghost use Rattle.std.specs.Prelude.{◌≡◌, ℕ, ◌+◌, ◌<◌, ◌^◌, Option, None, IsSome, IfOk};
ghost use Rattle.std.specs.Prelude.{IsErrOf};
ghost use Rattle.std.specs.Option.{IsSomeAnd};
ghost use Rattle.byte_formats.specs.Types.{Text};

use crate::{Cause, RoomError};
use disk_core::Disk;
use mtc_io::{Failed, Source};

/// The files that the program may reach, by name. A file has as many names as paths lead to its
/// folder.
pub trait Room {
    ghost use Rattle.mtc_io.specs.Counts.{with_count};
    ghost use Rattle.disk_core.specs.Same.{SameDevice};
    ghost use Rattle.mtc_room.specs.Room.{Opens, OpensOrFails, Stays, AllStay, OthersStay};
    ghost use Rattle.mtc_room.specs.Room.{LeavesOthers, MakesOnly, IsMadeEmpty, IsFoundOrNew};
    ghost use Rattle.mtc_room.specs.Room.{OpensBytes, ModelsFile};
    ghost use Rattle.mtc_room.specs.Places.{place_of};
    ghost use Rattle.mtc_room.specs.declared.cause.Cause.{Cause};

    /// What gives a file's bytes.
    type Src: Source;

    /// A file as a device.
    type Dsk: Disk;

    /// The model knows the files of the file system. It doesn't know real files.
    ghost is_modelled: { Self → Type 0 };

    /// The folder to which the path of a folder leads. A name has a path, up to its last slash, and
    /// the name of a file in that folder: these two are its place, and names of one place are of
    /// one file, as `s` and `./s`. Names of two places are of two files: no link leads to a file.
    ghost leads_to: { Text → Text };

    /// The bytes of each name's file, or none if there is no such file. It says nothing if the
    /// model doesn't know the files.
    ghost file: { Self → Text → Option Text };

    /// The device of each name's file, as it was when it was last closed.
    ghost device: { Self → Text → Option Self.Dsk };

    /// How often it has failed, with the failures of what was closed. The count never falls.
    ghost faults: { Self → ℕ };

    /// How many objects are open.
    ghost opened: { Self → ℕ };

    /// What it says of its last failure.
    ghost why: { Self → Cause };

    /// Opens a file that exists, as a source of its bytes. If the model knows the files, `Absent`
    /// comes only if there is none, and Ok only if there is one. `Failed` comes only with a failure
    /// of the file system; `Exists` never comes. The source has no failure so far, and gives the
    /// file's bytes.
    fn source(&mut self, name: &str) -> Result<Self::Src, RoomError>
        requires { opened self.old < 2 ^ 32 }
        ensures opens { Opens (opened self.old) (opened self.new)
            (faults self.old) (faults self.new) result }
        ensures stay { AllStay (file self.old) (file self.new) (device self.old) (device self.new) }
        ensures is_modelled { is_modelled self.old → is_modelled self.new }
        ensures bytes { IfOk result (λ s. is_modelled self.old
            → OpensBytes (file self.old name.now) (Self.Src.left s)) }
        ensures begins { IfOk result (λ s. Self.Src.faults s ≡ 0) }
        ensures absent { IsErrOf result RoomError.Absent → is_modelled self.old
            → file self.old name.now ≡ None }
        ensures never { IsErrOf result RoomError.Exists → ⊥ };

    /// Opens a file that exists, as a device, with the refusals of [`Room::source`]. The device has
    /// no failure so far, reads as the file does, and leaves after a crash what the file's device
    /// leaves.
    fn disk(&mut self, name: &str) -> Result<Self::Dsk, RoomError>
        requires { opened self.old < 2 ^ 32 }
        ensures opens { Opens (opened self.old) (opened self.new)
            (faults self.old) (faults self.new) result }
        ensures stay { AllStay (file self.old) (file self.new) (device self.old) (device self.new) }
        ensures is_modelled { is_modelled self.old → is_modelled self.new }
        ensures bytes { IfOk result (λ d. is_modelled self.old
            → OpensBytes (file self.old name.now) (Self.Dsk.contents d)) }
        ensures device { IfOk result (λ d. is_modelled self.old
            → IsSomeAnd (device self.old name.now) (λ e. SameDevice Self.Dsk.Disk e d)) }
        ensures begins { IfOk result (λ d. Self.Dsk.faults d ≡ 0) }
        ensures absent { IsErrOf result RoomError.Absent → is_modelled self.old
            → file self.old name.now ≡ None }
        ensures never { IsErrOf result RoomError.Exists → ⊥ };

    /// Makes an empty file and opens its device, which has no failure so far, and of which a crash
    /// leaves nothing. If the model knows the files, `Exists` comes only if the name has a file,
    /// and Ok only if it has none; and a refusal makes no file. `Failed` comes only with a failure
    /// of the file system; `Absent` never comes.
    fn fresh(&mut self, name: &str) -> Result<Self::Dsk, RoomError>
        requires { opened self.old < 2 ^ 32 }
        ensures opens { Opens (opened self.old) (opened self.new)
            (faults self.old) (faults self.new) result }
        ensures files { LeavesOthers (is_modelled self.old) (is_modelled self.new) leads_to
            (file self.old) (file self.new) (device self.old) (device self.new) name.now result }
        ensures only { MakesOnly (is_modelled self.old) (file self.old name.now)
            (device self.old name.now) result }
        ensures new { IfOk result (IsMadeEmpty Self.Dsk.Disk (is_modelled self.old)
            (file self.new name.now) (device self.new name.now)) };

    /// Opens the device of a file that exists, as [`Room::disk`], or makes an empty one and opens
    /// its device, as [`Room::fresh`]. It is for files whose contents follow from others.
    /// `Failed` comes only with a failure of the file system, and makes no file, if the model knows
    /// the files.
    fn scratch(&mut self, name: &str) -> Result<Self::Dsk, Failed>
        requires { opened self.old < 2 ^ 32 }
        ensures opens { OpensOrFails (opened self.old) (opened self.new)
            (faults self.old) (faults self.new) result }
        ensures files { LeavesOthers (is_modelled self.old) (is_modelled self.new) leads_to
            (file self.old) (file self.new) (device self.old) (device self.new) name.now result }
        ensures kept { is_modelled self.old → IsSome (file self.old name.now)
            → Stays (file self.old) (file self.new) (device self.old) (device self.new) name.now }
        ensures opened { IfOk result (IsFoundOrNew Self.Dsk.Disk (is_modelled self.old)
            (file self.old name.now) (file self.new name.now) (device self.new name.now)) };

    /// Why it failed last, where it failed at all. The line of a failed command has this word.
    fn cause(&self) -> Cause
        ensures { result ≡ why self.now };

    /// Closes a source, and adds its failures to its own.
    fn done(&mut self, source: Self::Src)
        requires { 0 < opened self.old }
        ensures out { opened self.new + 1 ≡ opened self.old }
        ensures count { faults self.new ≡ with_count (faults self.old) (Self.Src.faults source) }
        ensures stay { AllStay (file self.old) (file self.new) (device self.old) (device self.new) }
        ensures is_modelled { is_modelled self.old → is_modelled self.new };

    /// Closes a device, puts it in the place of that file's, and adds its failures to its own. If
    /// the name has no file, none is made.
    fn keep(&mut self, name: &str, disk: Self::Dsk)
        requires { 0 < opened self.old }
        ensures out { opened self.new + 1 ≡ opened self.old }
        ensures count { faults self.new ≡ with_count (faults self.old) (Self.Dsk.faults disk) }
        ensures others { OthersStay leads_to (file self.old) (file self.new)
            (device self.old) (device self.new) name.now }
        ensures is_modelled { is_modelled self.old → is_modelled self.new }
        ensures none { is_modelled self.old → file self.old name.now ≡ None
            → file self.new name.now ≡ None }
        ensures bytes { is_modelled self.old → IsSome (file self.old name.now)
            → OpensBytes (file self.new name.now) (Self.Dsk.contents disk) }
        ensures device { is_modelled self.old → IsSome (file self.old name.now)
            → IsSomeAnd (device self.new name.now) (λ e. SameDevice Self.Dsk.Disk disk e) };

    /// If the model knows the files, each has a device, and that has the same bytes.
    ghost modelled_file: { (m : Self) (name : Text) → is_modelled m
        → ModelsFile Self.Dsk.contents (file m name) (device m name) };

    /// If the model knows the files, names of one place have one device.
    ghost one_device: { (m : Self) (one other : Text) → is_modelled m
        → place_of leads_to one ≡ place_of leads_to other → device m one ≡ device m other };
}
