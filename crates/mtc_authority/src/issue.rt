//! The command `issue`: the entry of a request is added to a log.

ghost use Rattle.std.specs.Prelude.{◌≡◌, ◌<◌, ◌+◌, ◌^◌, [], ◌∷◌, IfOk};
ghost use Rattle.issuance_log.specs.Words.{log_tiles_disk};
ghost use Rattle.mtc_command.specs.Answers.{stop_ending, ending_of, tiles_name};
ghost use Rattle.mtc_command.specs.Served.{HasServedBeside, OnlyReadsBeside};
ghost use Rattle.mtc_command.specs.Stored.{StoresBeside};
ghost use Rattle.mtc_command.specs.Valid.{KeepsValid};
ghost use Rattle.mtc_tiled.specs.Headers.{SparesTiles};
ghost use Rattle.authority_core.specs.Reasons.{field_text};
ghost use Rattle.mtc_authority.specs.IssueOutcome.{issue_ending, issue_says};
ghost use Rattle.mtc_authority.specs.IssueOutcome.{issued_text, MayRefuseEntry};
ghost use Rattle.mtc_authority.specs.IssueOutcome.{request_ending};
ghost use Rattle.mtc_authority.specs.IssueCommand.{issue_outcome};
ghost use Rattle.mtc_authority.specs.StoredTiles.{HasTilesOf};
ghost use Rattle.mtc_authority.specs.Works.{HasWorkedOnLog, IsLog, IsReadyLog, StaysLog};

use crate::log_command::on_log;
use crate::work::Work;
use authority_core::{Field, IssueError, Request, RequestError, read_request};
use disk_core::Disk;
use issuance_log::{Log, LogError};
use journal_core::AppendError;
use mtc_command::{
    Answer, INPUT_LIMIT, Reason, Said, Stop, Stopped, read_input, refuse, refuse_file,
};
use mtc_io::{Bytes, Memory};
use mtc_room::Room;
use std::alloc::Global;
use tree_core::TreeHash;

// The line of an entry at this index.
pub(crate) fn text_of_index(alloc: Global, index: u64) -> Result<Bytes, Memory>
    ensures { IfOk result (λ text. text ≡ issued_text index) }
{
    Ok(Bytes::from_vec(format!(in alloc; "issued {index}\n")?.into_bytes()))
}

// Why a log that was opened just now takes no entry.
fn refuse_entry<'a>(journal: &'a str, why: IssueError) -> Stop<'a>
    requires { MayRefuseEntry why }
    ensures { stop_ending result ≡ issue_ending journal.now why }
{
    let beyond = Stopped::Beyond;
    match why {
        IssueError::Log(LogError::Full) => refuse(beyond, Reason::named("Full")),
        IssueError::Log(LogError::TooLarge) => refuse(beyond, Reason::named("TooLarge")),
        IssueError::Log(LogError::Append(AppendError::Full)) => {
            refuse(beyond, Reason::named("JournalFull"))
        }
        IssueError::Log(LogError::Append(AppendError::Failed)) => Stop::Room(journal),
        IssueError::Log(LogError::Memory) => Stop::Memory,
        _ => unreachable!(),
    }
}

/// The work of `issue J REQUEST`. The text is made before the entry is added, so that nothing takes
/// memory after the append.
pub fn issue_on<'a, H: TreeHash, D: Disk>(
    alloc: Global,
    journal: &'a str,
    log: &mut Log<H, D, D>,
    request: &Request,
) -> Result<Answer, Stop<'a>>
    requires { IsReadyLog log.old }
    ensures works { HasWorkedOnLog journal.now (issue_says H.hash request.now) log.old log.new
        (ending_of result) }
    ensures valid { StaysLog H.hash (issue_says H.hash request.now) log.old log.new }
    ensures tiles { log_tiles_disk log.new ≡ log_tiles_disk log.old }
{
    let text = text_of_index(alloc, log.size())?;
    match authority_core::issue(alloc, log, request) {
        Ok(_index) => Ok(Answer {
            status: Said::Done,
            text,
        }),
        Err(why) => Err(refuse_entry(journal, why)),
    }
}

pub(crate) fn field_name(field: Field) -> &'static str
    ensures { result.now ≡ field_text field }
{
    match field {
        Field::NotBefore => "NotBefore",
        Field::NotAfter => "NotAfter",
        Field::Dns => "Dns",
        Field::CommonName => "CommonName",
        Field::PublicKey => "PublicKey",
    }
}

// Why a file is no request.
fn refuse_request<'a>(file: &'a str, why: RequestError) -> Stop<'a>
    ensures { stop_ending result ≡ request_ending file.now why }
{
    let bad = Stopped::BadForm;
    match why {
        RequestError::NotToml => refuse_file(bad, file, Reason::named("NotToml")),
        RequestError::UnknownKey => refuse_file(bad, file, Reason::named("UnknownKey")),
        RequestError::Missing(field) => {
            refuse_file(bad, file, Reason::with_name("Missing", field_name(field)))
        }
        RequestError::BadValue(field) => {
            refuse_file(bad, file, Reason::with_name("BadValue", field_name(field)))
        }
        RequestError::DatesReversed => refuse_file(bad, file, Reason::named("DatesReversed")),
        RequestError::NoNames => refuse_file(bad, file, Reason::named("NoNames")),
        RequestError::Memory => Stop::Memory,
    }
}

/// The command `issue J REQUEST`.
pub fn issue<'a, H: TreeHash, R: Room>(
    alloc: Global,
    room: &mut R,
    journal: &'a str,
    file: &'a str,
) -> Result<Answer, Stop<'a>>
    requires { R.opened room.old + 1 < 2 ^ 32 }
    ensures serves { HasServedBeside R.Room R.Dsk.Disk
        (journal.now ∷ tiles_name journal.now ∷ file.now ∷ []) journal.now (tiles_name journal.now)
        (issue_outcome H.hash journal.now file.now (R.file room.old))
        room.old room.new (ending_of result) }
    ensures valid { KeepsValid R.Room R.Dsk.Disk (IsLog H.hash) (journal.now ∷ [])
        (issue_outcome H.hash journal.now file.now (R.file room.old)) room.old room.new }
    ensures only_read { OnlyReadsBeside R.Room R.Dsk.Disk room.old room.new
        (tiles_name journal.now) }
    ensures stores { StoresBeside (HasTilesOf H.hash) (IsLog H.hash) R.Room R.Dsk.Disk
        room.old room.new (journal.now ∷ []) (tiles_name journal.now ∷ [])
        (issue_outcome H.hash journal.now file.now (R.file room.old)) }
    ensures spares { SparesTiles R.Room room.old room.new journal.now }
{
    let text = read_input(alloc, room, file, INPUT_LIMIT)?;
    match read_request(alloc, text.as_slice()) {
        Ok(request) => on_log::<H, R>(alloc, room, journal, Work::Issue(request)),
        Err(why) => Err(refuse_request(file, why)),
    }
}
