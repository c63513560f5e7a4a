//! The commands `cert` and `light-cert`: the certificate of an entry.

ghost use Rattle.std.specs.Prelude.{◌≡◌, ◌+◌, ◌<◌, ◌^◌, [], ◌∷◌};
ghost use Rattle.byte_formats.specs.Readings.{Gives};
ghost use Rattle.mtc_command.specs.Answers.{stop_ending, ending_of, tiles_name};
ghost use Rattle.mtc_command.specs.Served.{HasServedBeside, OnlyReadsBeside};
ghost use Rattle.mtc_command.specs.Stored.{StoresBeside};
ghost use Rattle.mtc_command.specs.Valid.{KeepsValid};
ghost use Rattle.mtc_tiled.specs.Headers.{SparesTiles};
ghost use Rattle.mtc_authority.specs.StoredTiles.{HasTilesOf};
ghost use Rattle.mtc_authority.specs.Works.{IsLog, RepliesOnLog};
ghost use Rattle.mtc_proof.specs.Proofs.{AreSignatures};
ghost use Rattle.mtc_authority.specs.CertOutcome.{cert_ending, cert_reply, light_reply};
ghost use Rattle.mtc_authority.specs.CertOutcome.{signatures_ending, signatures_in};
ghost use Rattle.mtc_authority.specs.CertCommand.{cert_outcome};

use crate::log_command::on_log;
use crate::work::Work;
use authority_core::WriteError;
use disk_core::Disk;
use issuance_log::Log;
use mtc_command::{
    Answer, INPUT_LIMIT, Reason, Said, Stop, Stopped, read_input, refuse, refuse_file,
};
use mtc_io::Bytes;
use mtc_proof::{ProofError, check_signatures};
use mtc_room::Room;
use std::alloc::Global;
use std::marker::Model;
use tree_core::TreeHash;

/// Signatures of cosigners, one after the other, or none. Contracts see the bytes.
#[derive(Drop)]
pub struct Signatures {
    bytes: Bytes,
}

impl Model for Signatures {
    ghost use Rattle.byte_formats.specs.Types.{Text};
    ghost use Rattle.mtc_proof.specs.Proofs.{AreSignatures};

    ghost Value = { Text };

    ghost view = { λ s. s.bytes };

    ghost invariant = { λ s. AreSignatures s.bytes };
}

impl Signatures {
    // The signatures that bytes are.
    pub(crate) fn read(bytes: Bytes) -> Result<Signatures, ProofError>
        ensures { Gives (λ s. s) result (signatures_in bytes) }
    {
        match check_signatures(bytes.as_slice()) {
            Ok(()) => Ok(Signatures { bytes }),
            Err(why) => Err(why),
        }
    }

    pub(crate) fn as_slice(&self) -> &[u8]
        ensures value { result.now ≡ self.now }
        ensures signed { AreSignatures result.now }
    {
        self.bytes.as_slice()
    }
}

// Why no certificate is written of a log in this journal.
fn refuse_certificate<'a>(journal: &'a str, why: WriteError) -> Stop<'a>
    ensures { stop_ending result ≡ cert_ending journal.now why }
{
    let not_allowed = Stopped::NotAllowed;
    match why {
        WriteError::NoSuchEntry => refuse(not_allowed, Reason::named("NoSuchEntry")),
        WriteError::NullEntry => refuse(not_allowed, Reason::named("NullEntry")),
        WriteError::BadSubtree => refuse(not_allowed, Reason::named("BadSubtree")),
        WriteError::Outside => refuse(not_allowed, Reason::named("Outside")),
        WriteError::Beyond(size) => refuse(not_allowed, Reason::with_number("Beyond", size)),
        WriteError::NotCovered => refuse(not_allowed, Reason::named("NotCovered")),
        WriteError::TooManySignatures => {
            refuse(Stopped::Beyond, Reason::named("TooManySignatures"))
        }
        WriteError::JournalFailed => Stop::Room(journal),
        WriteError::TilesFailed => Stop::Tiles(journal),
        WriteError::Memory => Stop::Memory,
    }
}

/// The work of `cert J INDEX START END SIGNATURES`.
pub(crate) fn certificate<'a, H: TreeHash, D: Disk>(
    alloc: Global,
    journal: &'a str,
    log: &mut Log<H, D, D>,
    index: u64,
    start: u64,
    end: u64,
    signatures: &Signatures,
) -> Result<Answer, Stop<'a>>
    ensures { RepliesOnLog journal.now (cert_reply H.hash index start end signatures.now) log.old
        log.new (ending_of result) }
{
    log.law_sound();
    match authority_core::cert(alloc, log, index, start, end, signatures.as_slice()) {
        Ok(text) => Ok(Answer {
            status: Said::Done,
            text,
        }),
        Err(why) => Err(refuse_certificate(journal, why)),
    }
}

/// The work of `light-cert J INDEX`.
pub(crate) fn light_certificate<'a, H: TreeHash, D: Disk>(
    alloc: Global,
    journal: &'a str,
    log: &mut Log<H, D, D>,
    index: u64,
) -> Result<Answer, Stop<'a>>
    ensures { RepliesOnLog journal.now (light_reply H.hash index) log.old log.new
        (ending_of result) }
{
    log.law_sound();
    match authority_core::light_cert(alloc, log, index) {
        Ok(text) => Ok(Answer {
            status: Said::Done,
            text,
        }),
        Err(why) => Err(refuse_certificate(journal, why)),
    }
}

// Why a file doesn't hold signatures.
pub(crate) fn refuse_signatures<'a>(file: &'a str, why: ProofError) -> Stop<'a>
    ensures { stop_ending result ≡ signatures_ending file.now why }
{
    let bad = Stopped::BadForm;
    match why {
        ProofError::Short(offset) => {
            refuse_file(bad, file, Reason::with_number("Short", offset as u64))
        }
        ProofError::HashLength => refuse_file(bad, file, Reason::named("HashLength")),
        ProofError::Trailing => refuse_file(bad, file, Reason::named("Trailing")),
        ProofError::EmptyId(offset) => {
            refuse_file(bad, file, Reason::with_number("EmptyId", offset as u64))
        }
    }
}

/// The command `cert J INDEX START END SIGNATURES`.
pub fn cert<'a, H: TreeHash, R: Room>(
    alloc: Global,
    room: &mut R,
    journal: &'a str,
    index: u64,
    start: u64,
    end: u64,
    file: &'a str,
) -> Result<Answer, Stop<'a>>
    requires { R.opened room.old + 1 < 2 ^ 32 }
    ensures serves { HasServedBeside R.Room R.Dsk.Disk
        (journal.now ∷ tiles_name journal.now ∷ file.now ∷ []) journal.now
        (tiles_name journal.now)
        (cert_outcome H.hash journal.now index start end file.now (R.file room.old))
        room.old room.new (ending_of result) }
    ensures valid { KeepsValid R.Room R.Dsk.Disk (IsLog H.hash) (journal.now ∷ [])
        (cert_outcome H.hash journal.now index start end file.now (R.file room.old))
        room.old room.new }
    ensures only_read { OnlyReadsBeside R.Room R.Dsk.Disk room.old room.new
        (tiles_name journal.now) }
    ensures stores { StoresBeside (HasTilesOf H.hash) (IsLog H.hash) R.Room R.Dsk.Disk
        room.old room.new (journal.now ∷ []) (tiles_name journal.now ∷ [])
        (cert_outcome H.hash journal.now index start end file.now (R.file room.old)) }
    ensures spares { SparesTiles R.Room room.old room.new journal.now }
{
    let bytes = read_input(alloc, room, file, INPUT_LIMIT)?;
    match Signatures::read(bytes) {
        Ok(signatures) => {
            on_log::<H, R>(
                alloc,
                room,
                journal,
                Work::Cert(index, start, end, signatures),
            )
        }
        Err(why) => Err(refuse_signatures(file, why)),
    }
}
