//! The command `init-log`: a new log.

ghost use Rattle.std.specs.Prelude.{◌≡◌, ◌<◌, ◌^◌, true, [], ◌∷◌, IfOk};
ghost use Rattle.byte_formats.specs.Types.{HashFunction};
ghost use Rattle.mtc_words.specs.Commands.{is_active, is_limit};
ghost use Rattle.mtc_command.specs.Answers.{ending_of};
ghost use Rattle.mtc_command.specs.Served.{HasServed};
ghost use Rattle.mtc_command.specs.Valid.{KeepsValid};
ghost use Rattle.mtc_command.specs.Works.{ModelsNew};
ghost use Rattle.mtc_authority.specs.LogOutcomes.{log_line, init_log_outcome};
ghost use Rattle.mtc_authority.specs.Works.{IsLog};

use issuance_log::{LogSettings, pack};
use mtc_command::{Answer, Stop, make_journal};
use mtc_io::{Bytes, Memory};
use mtc_room::Room;
use std::alloc::Global;
use tls_wire::AnchorId;

fn text_of_log(alloc: Global, id: &AnchorId) -> Result<Bytes, Memory>
    ensures { IfOk result (λ text. text ≡ log_line id.now) }
{
    let name = id.to_text()?;
    let mut text = Bytes::copy_of(alloc, b"log ")?;
    text.append_both(name.as_slice(), b"\n")?;
    Ok(text)
}

/// The command `init-log J LOGID MAXACTIVE LIMIT`. All memory is taken before the journal is made.
pub fn init_log<'a, R: Room>(
    alloc: Global,
    room: &mut R,
    journal: &'a str,
    id: AnchorId,
    max_active: u64,
    limit: u64,
) -> Result<Answer, Stop<'a>>
    requires opened { R.opened room.old < 2 ^ 32 }
    requires active { is_active max_active ≡ true }
    requires limit { is_limit limit ≡ true }
    ensures serves { HasServed R.Room R.Dsk.Disk (journal.now ∷ []) journal.now
        (init_log_outcome journal.now id max_active limit (R.file room.old))
        room.old room.new (ending_of result) }
    ensures valid { (h : HashFunction)
        → KeepsValid R.Room R.Dsk.Disk (IsLog h) (journal.now ∷ [])
        (init_log_outcome journal.now id max_active limit (R.file room.old)) room.old room.new }
    ensures begins { ModelsNew R.Room R.Dsk.Disk journal.now room.old room.new (ending_of result) }
{
    let settings = LogSettings {
        id,
        max_active: max_active as u32,
        limit: limit as u32,
    };
    let text = text_of_log(alloc, &settings.id)?;
    let first = pack(alloc, &settings)?;
    make_journal(room, journal, first, text)
}
