//! The command `mirror-init`: a new mirror.

ghost use Rattle.std.specs.Prelude.{◌≡◌, ◌<◌, ◌^◌, [], ◌∷◌, IfOk};
ghost use Rattle.byte_formats.specs.Types.{HashFunction};
ghost use Rattle.mtc_command.specs.Answers.{ending_of};
ghost use Rattle.mtc_command.specs.Served.{HasServed};
ghost use Rattle.mtc_command.specs.Valid.{KeepsValid};
ghost use Rattle.mtc_command.specs.Works.{ModelsNew};
ghost use Rattle.mtc_mirror.specs.MirrorOutcomes.{mirror_init_outcome, mirror_line};
ghost use Rattle.mtc_mirror.specs.Works.{IsMirror};

use mirror_core::pack;
use mtc_command::{Answer, Stop, make_journal};
use mtc_io::{Bytes, Memory};
use mtc_room::Room;
use std::alloc::Global;
use tls_wire::AnchorId;

fn text_of_mirror(alloc: Global, id: &AnchorId) -> Result<Bytes, Memory>
    ensures { IfOk result (λ text. text ≡ mirror_line id.now) }
{
    let name = id.to_text()?;
    let mut text = Bytes::copy_of(alloc, b"mirror ")?;
    text.append_both(name.as_slice(), b"\n")?;
    Ok(text)
}

/// The command `mirror-init M LOGID`. All memory is taken before the journal is made.
pub fn mirror_init<'a, R: Room>(
    alloc: Global,
    room: &mut R,
    journal: &'a str,
    id: AnchorId,
) -> Result<Answer, Stop<'a>>
    requires { R.opened room.old < 2 ^ 32 }
    ensures serves { HasServed R.Room R.Dsk.Disk (journal.now ∷ []) journal.now
        (mirror_init_outcome journal.now id (R.file room.old)) room.old room.new
        (ending_of result) }
    ensures valid { (h : HashFunction)
        → KeepsValid R.Room R.Dsk.Disk (IsMirror h) (journal.now ∷ [])
        (mirror_init_outcome journal.now id (R.file room.old)) room.old room.new }
    ensures begins { ModelsNew R.Room R.Dsk.Disk journal.now room.old room.new (ending_of result) }
{
    let text = text_of_mirror(alloc, &id)?;
    let first = pack(alloc, &id)?;
    make_journal(room, journal, first, text)
}
