//! The commands `certs` and `light-certs`: the certificates of several entries, as PEM.

ghost use Rattle.std.specs.Prelude.{◌≡◌, ◌+◌, ◌<◌, ◌^◌, [], ◌∷◌};
ghost use Rattle.mtc_command.specs.Answers.{stop_ending, ending_of, reason_text, tiles_name};
ghost use Rattle.authority_core.specs.Reasons.{several_fault_text};
ghost use Rattle.mtc_command.specs.Served.{HasServedBeside, OnlyReadsBeside};
ghost use Rattle.mtc_command.specs.Stored.{StoresBeside};
ghost use Rattle.mtc_command.specs.Valid.{KeepsValid};
ghost use Rattle.mtc_tiled.specs.Headers.{SparesTiles};
ghost use Rattle.mtc_authority.specs.StoredTiles.{HasTilesOf};
ghost use Rattle.mtc_authority.specs.Works.{IsLog, RepliesOnLog};
ghost use Rattle.mtc_authority.specs.ListCommands.{certs_outcome};
ghost use Rattle.mtc_authority.specs.ListOutcomes.{certs_reply, light_certs_reply, several_ending};

use crate::cert::{Signatures, refuse_signatures};
use crate::log_command::on_log;
use crate::work::Work;
use authority_core::{SeveralError, WriteError};
use disk_core::Disk;
use issuance_log::Log;
use mtc_command::{Answer, INPUT_LIMIT, Reason, Said, Stop, Stopped, read_input, refuse};
use mtc_room::Room;
use std::alloc::Global;
use tree_core::TreeHash;

// Why the certificate of the entry at this index is refused.
fn reason_of(why: WriteError, index: u64) -> Reason
    ensures { reason_text result ≡ several_fault_text (SeveralError.OfEntry why index) }
{
    match why {
        WriteError::NoSuchEntry => Reason::with_number("NoSuchEntry", index),
        WriteError::NullEntry => Reason::with_number("NullEntry", index),
        WriteError::BadSubtree => Reason::with_number("BadSubtree", index),
        WriteError::Outside => Reason::with_number("Outside", index),
        WriteError::Beyond(size) => Reason::with_numbers("Beyond", size, index),
        WriteError::NotCovered => Reason::with_number("NotCovered", index),
        WriteError::TooManySignatures => Reason::with_number("TooManySignatures", index),
        WriteError::JournalFailed | WriteError::TilesFailed => {
            Reason::with_number("Failed", index)
        }
        WriteError::Memory => Reason::with_number("Memory", index),
    }
}

// Why no certificates are written of a log in this journal.
fn refuse_certificates<'a>(journal: &'a str, why: SeveralError) -> Stop<'a>
    ensures { stop_ending result ≡ several_ending journal.now why }
{
    match why {
        SeveralError::NothingNew => refuse(Stopped::NotAllowed, Reason::named("NothingNew")),
        SeveralError::OfEntry(WriteError::TooManySignatures, index) => {
            refuse(
                Stopped::Beyond,
                reason_of(WriteError::TooManySignatures, index),
            )
        }
        SeveralError::OfEntry(why, index) => refuse(Stopped::NotAllowed, reason_of(why, index)),
        SeveralError::JournalFailed => Stop::Room(journal),
        SeveralError::TilesFailed => Stop::Tiles(journal),
        SeveralError::Memory => Stop::Memory,
    }
}

/// The work of `certs J FIRST LAST START END SIGNATURES`.
pub(crate) fn certificates<'a, H: TreeHash, D: Disk>(
    alloc: Global,
    journal: &'a str,
    log: &mut Log<H, D, D>,
    first: u64,
    last: u64,
    start: u64,
    end: u64,
    signatures: &Signatures,
) -> Result<Answer, Stop<'a>>
    ensures { RepliesOnLog journal.now (certs_reply H.hash first last start end signatures.now)
        log.old log.new (ending_of result) }
{
    log.law_sound();
    match authority_core::certs(alloc, log, first, last, start, end, signatures.as_slice()) {
        Ok(text) => Ok(Answer {
            status: Said::Done,
            text,
        }),
        Err(why) => Err(refuse_certificates(journal, why)),
    }
}

/// The work of `light-certs J FIRST LAST`.
pub(crate) fn light_certificates<'a, H: TreeHash, D: Disk>(
    alloc: Global,
    journal: &'a str,
    log: &mut Log<H, D, D>,
    first: u64,
    last: u64,
) -> Result<Answer, Stop<'a>>
    ensures { RepliesOnLog journal.now (light_certs_reply H.hash first last) log.old log.new
        (ending_of result) }
{
    log.law_sound();
    match authority_core::light_certs(alloc, log, first, last) {
        Ok(text) => Ok(Answer {
            status: Said::Done,
            text,
        }),
        Err(why) => Err(refuse_certificates(journal, why)),
    }
}

/// The command `certs J FIRST LAST START END SIGNATURES`.
pub fn certs<'a, H: TreeHash, R: Room>(
    alloc: Global,
    room: &mut R,
    journal: &'a str,
    first: u64,
    last: u64,
    start: u64,
    end: u64,
    file: &'a str,
) -> Result<Answer, Stop<'a>>
    requires { R.opened room.old + 1 < 2 ^ 32 }
    ensures serves { HasServedBeside R.Room R.Dsk.Disk
        (journal.now ∷ tiles_name journal.now ∷ file.now ∷ []) journal.now
        (tiles_name journal.now)
        (certs_outcome H.hash journal.now first last start end file.now (R.file room.old))
        room.old room.new (ending_of result) }
    ensures valid { KeepsValid R.Room R.Dsk.Disk (IsLog H.hash) (journal.now ∷ [])
        (certs_outcome H.hash journal.now first last start end file.now (R.file room.old))
        room.old room.new }
    ensures only_read { OnlyReadsBeside R.Room R.Dsk.Disk room.old room.new
        (tiles_name journal.now) }
    ensures stores { StoresBeside (HasTilesOf H.hash) (IsLog H.hash) R.Room R.Dsk.Disk
        room.old room.new (journal.now ∷ []) (tiles_name journal.now ∷ [])
        (certs_outcome H.hash journal.now first last start end file.now (R.file room.old)) }
    ensures spares { SparesTiles R.Room room.old room.new journal.now }
{
    let bytes = read_input(alloc, room, file, INPUT_LIMIT)?;
    match Signatures::read(bytes) {
        Ok(signatures) => {
            on_log::<H, R>(
                alloc,
                room,
                journal,
                Work::Certs(first, last, start, end, signatures),
            )
        }
        Err(why) => Err(refuse_signatures(file, why)),
    }
}
