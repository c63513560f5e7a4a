//! A file of entries as an input of a command.

ghost use Rattle.std.specs.Prelude.{◌≡◌, ◌<◌, ◌^◌, List, [], IfOk, IfErr};
ghost use Rattle.byte_formats.specs.Types.{Text};
ghost use Rattle.entry_stream.specs.Streams.{AreItemsOf, empty_list};
ghost use Rattle.mtc_command.specs.Answers.{stop_ending};
ghost use Rattle.mtc_command.specs.Endings.{IsInputStop, IsNamed};
ghost use Rattle.mtc_command.specs.Served.{ClosesAll, HasDone};
ghost use Rattle.mtc_command.specs.Steps.{Outcome, with_bytes};
ghost use Rattle.mtc_streams.specs.Inputs.{IsStreamed};

use entry_list::ItemsError;
use entry_stream::{ItemFold, fold_items};
use mtc_command::{Reason, Stop, Stopped, refuse_file};
use mtc_io::ReadError;
use mtc_room::{Room, RoomError};
use std::alloc::Global;
use tree_core::TreeHash;

/// Reads a file of entries of at most so many bytes, and closes what the file system opened. The
/// fold, which has taken no item so far, takes each item in its order. The answer is the number of
/// the items, or the first fault of the file.
pub fn fold_input<'a, H: TreeHash, R: Room, F: ItemFold>(
    alloc: Global,
    room: &mut R,
    name: &'a str,
    limit: u64,
    fold: &mut F,
) -> Result<Result<u64, ItemsError>, Stop<'a>>
    requires opened { R.opened room.old < 2 ^ 32 }
    requires none { F.has_taken fold.old empty_list }
    ensures all_closed { ClosesAll R.Room room.old room.new [] }
    ensures items { IfOk result (λ answer. IsStreamed (R.is_modelled room.old) limit
        (R.file room.old name.now) (AreItemsOf H.hash (F.has_taken fold.new) answer)) }
    ensures same { F.made_with fold.new ≡ F.made_with fold.old }
    ensures kept { F.purpose fold.new ≡ F.purpose fold.old }
    ensures kind { IfErr result (λ stop. IsInputStop name.now (stop_ending stop)) }
    ensures stops { IfErr result (λ stop. (files names : List Text)
        (next : Text → Outcome) → IsNamed files name.now
        → HasDone R.Room R.Dsk.Disk ⊥ files names []
        (with_bytes limit name.now (R.file room.old name.now) next)
        room.old room.new (stop_ending stop)) }
{
    let mut source = match room.source(name) {
        Ok(source) => source,
        Err(RoomError::Absent) => {
            return Err(refuse_file(Stopped::Missing, name, Reason::named("Absent")));
        }
        Err(RoomError::Exists) => unreachable!(),
        Err(RoomError::Failed) => return Err(Stop::Room(name)),
    };
    let read = fold_items::<H, _, _>(alloc, &mut source, limit, fold);
    room.done(source);
    match read {
        Ok(answer) => Ok(answer),
        Err(ReadError::TooLong) => {
            Err(refuse_file(Stopped::Beyond, name, Reason::named("TooLong")))
        }
        Err(ReadError::Failed) => Err(Stop::Room(name)),
        Err(ReadError::Memory) => Err(Stop::Memory),
    }
}
