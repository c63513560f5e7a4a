//! The input files of a command.

ghost use Rattle.std.specs.Prelude.{◌≡◌, ◌<◌, ◌≤◌, ◌^◌, List, [], Some, length, IfOk, IfErr};
ghost use Rattle.byte_formats.specs.Types.{Text};
ghost use Rattle.mtc_command.specs.Answers.{stop_ending};
ghost use Rattle.mtc_command.specs.Served.{ClosesAll, HasDone};
ghost use Rattle.mtc_command.specs.Endings.{IsInputStop, IsNamed};
ghost use Rattle.mtc_command.specs.Steps.{Outcome, with_bytes};

use crate::answer::{Reason, Stop, Stopped};
use crate::reason::refuse_file;
use mtc_io::{Bytes, ReadError, read_all};
use mtc_room::{Room, RoomError};
use std::alloc::Global;

/// The bytes of most input files are at most so many.
pub const INPUT_LIMIT: u64 = 16_777_216;

/// Those of a list, of entries or of a cosigner's steps in an export, are at most so many.
pub const LIST_LIMIT: u64 = 8_589_934_592;

/// Reads a file of at most so many bytes, and closes what the file system opened.
pub fn read_input<'a, R: Room>(
    alloc: Global,
    room: &mut R,
    name: &'a str,
    limit: u64,
) -> Result<Bytes, Stop<'a>>
    requires { R.opened room.old < 2 ^ 32 }
    ensures all_closed { ClosesAll R.Room room.old room.new [] }
    ensures bytes { IfOk result (λ bytes. R.is_modelled room.old
        → (R.file room.old name.now ≡ Some bytes) × (length bytes ≤ limit)) }
    ensures kind { IfErr result (λ stop. IsInputStop name.now (stop_ending stop)) }
    ensures stops { IfErr result (λ stop. (files names : List Text)
        (next : Text → Outcome) → IsNamed files name.now
        → HasDone R.Room R.Dsk.Disk ⊥ files names []
        (with_bytes limit name.now (R.file room.old name.now) next)
        room.old room.new (stop_ending stop)) }
{
    let mut source = match room.source(name) {
        Ok(source) => source,
        Err(RoomError::Absent) => {
            return Err(refuse_file(Stopped::Missing, name, Reason::named("Absent")));
        }
        Err(RoomError::Exists) => unreachable!(),
        Err(RoomError::Failed) => return Err(Stop::Room(name)),
    };
    let read = read_all(alloc, &mut source, limit);
    room.done(source);
    match read {
        Ok(bytes) => Ok(bytes),
        Err(ReadError::TooLong) => {
            Err(refuse_file(Stopped::Beyond, name, Reason::named("TooLong")))
        }
        Err(ReadError::Failed) => Err(Stop::Room(name)),
        Err(ReadError::Memory) => Err(Stop::Memory),
    }
}
