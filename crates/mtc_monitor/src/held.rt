//! The command `held`: what an export says of its cosigner.

ghost use Rattle.std.specs.Prelude.{◌<◌, ◌^◌, [], ◌∷◌};
ghost use Rattle.mtc_command.specs.Answers.{ending_of};
ghost use Rattle.mtc_command.specs.Endings.{Replies};
ghost use Rattle.mtc_command.specs.Served.{HasAnswered};
ghost use Rattle.mtc_monitor.specs.HeldOutcome.{held_outcome, held_says};

use crate::held_lines::held_lines;
use cosigner_core::ReadExportError;
use cosigner_steps::read_steps;
use mtc_command::{Answer, LIST_LIMIT, Said, Stop, Stopped, read_input, refuse_file};
use mtc_lines::export_reason;
use mtc_room::Room;
use std::alloc::Global;
use tree_core::TreeHash;

// Reads the export.
fn held_answer<'a, H: TreeHash>(
    alloc: Global,
    export: &'a str,
    bytes: &[u8],
) -> Result<Answer, Stop<'a>>
    ensures { Replies (held_says H.hash export.now bytes.now).answer (ending_of result) }
{
    match read_steps::<H>(alloc, bytes) {
        Ok(kept) => Ok(Answer {
            status: Said::Done,
            text: held_lines::<H>(alloc, kept.as_ref())?,
        }),
        Err(ReadExportError::Memory) => Err(Stop::Memory),
        Err(why) => Err(refuse_file(Stopped::BadForm, export, export_reason(why))),
    }
}

/// The command `held EXPORT`. No bytes are the export of no cosigner.
pub fn held<'a, H: TreeHash, R: Room>(
    alloc: Global,
    room: &mut R,
    export: &'a str,
) -> Result<Answer, Stop<'a>>
    requires { R.opened room.old < 2 ^ 32 }
    ensures { HasAnswered R.Room R.Dsk.Disk (export.now ∷ [])
        (held_outcome H.hash export.now (R.file room.old)) room.old room.new (ending_of result) }
{
    let bytes = read_input(alloc, room, export, LIST_LIMIT)?;
    held_answer::<H>(alloc, export, bytes.as_slice())
}
