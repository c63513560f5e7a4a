//! The command `issue-list`: the entries of several requests are added to a log, all or none.

ghost use Rattle.std.specs.Prelude.{◌≡◌, ◌<◌, ◌≤◌, ◌+◌, ◌^◌, [], ◌∷◌, length, IfOk};
ghost use Rattle.issuance_log.specs.Words.{log_tiles_disk};
ghost use Rattle.mtc_command.specs.Answers.{stop_ending, ending_of, tiles_name};
ghost use Rattle.mtc_command.specs.Served.{HasServedBeside, OnlyReadsBeside};
ghost use Rattle.mtc_command.specs.Stored.{StoresBeside};
ghost use Rattle.mtc_command.specs.Valid.{KeepsValid};
ghost use Rattle.mtc_tiled.specs.Headers.{SparesTiles};
ghost use Rattle.mtc_authority.specs.ListCommands.{issue_list_outcome};
ghost use Rattle.mtc_authority.specs.ListOutcomes.{MayRefuseEntries, issue_list_says};
ghost use Rattle.mtc_authority.specs.ListOutcomes.{issued_lines, request_list_ending};
ghost use Rattle.mtc_authority.specs.IssueOutcome.{issue_ending};
ghost use Rattle.mtc_authority.specs.StoredTiles.{HasTilesOf};
ghost use Rattle.mtc_authority.specs.Works.{HasWorkedOnLog, IsLog, IsReadyLog, StaysLog};

use crate::issue::{field_name, text_of_index};
use crate::log_command::on_log;
use crate::work::Work;
use authority_core::{IssueError, Request, RequestError, RequestListError, read_requests};
use disk_core::Disk;
use issuance_log::{Log, LogError};
use journal_core::AppendError;
use mtc_command::{
    Answer, INPUT_LIMIT, Reason, Said, Stop, Stopped, read_input, refuse, refuse_file,
};
use mtc_io::{Bytes, Memory};
use mtc_room::Room;
use std::alloc::Global;
use std::marker::Model;
use tree_core::TreeHash;

/// Requests, one at least. Contracts see the list of them.
#[derive(Drop)]
pub struct Requests {
    items: Vec<Request>,
}

impl Model for Requests {
    ghost use Rattle.std.specs.Prelude.{◌≤◌, List, length};
    ghost use Rattle.authority_core.specs.Requests.{RequestParts};

    ghost Value = { List RequestParts };

    ghost view = { λ r. r.items.items };

    ghost invariant = { λ r. 1 ≤ length r.items.items };
}

impl Requests {
    // The requests of a vector, without a copy.
    fn from_vec(items: Vec<Request>) -> Requests
        requires { 1 ≤ length items.items }
        ensures { result ≡ items.items }
    {
        Requests { items }
    }

    fn as_slice(&self) -> &[Request]
        ensures value { result.now ≡ self.now }
        ensures some { 1 ≤ length result.now }
    {
        self.items.as_slice()
    }
}

// The lines of so many entries, from this index on.
fn lines_from(alloc: Global, first: u64, count: u64) -> Result<Bytes, Memory>
    requires { first + count < 2 ^ 64 }
    ensures { IfOk result (λ text. text ≡ issued_lines first count) }
{
    let mut text = Bytes::new(alloc);
    let end = first + count;
    for index in first..end {
        let line = text_of_index(alloc, index)?;
        text.append(line.as_slice())?;
    }
    Ok(text)
}

// Why a log that was opened just now takes none of the entries.
fn refuse_entries<'a>(journal: &'a str, why: IssueError) -> Stop<'a>
    requires { MayRefuseEntries why }
    ensures { stop_ending result ≡ issue_ending journal.now why }
{
    let beyond = Stopped::Beyond;
    match why {
        IssueError::Log(LogError::Full) => refuse(beyond, Reason::named("Full")),
        IssueError::Log(LogError::TooMany(count)) => {
            refuse(beyond, Reason::with_number("TooMany", count))
        }
        IssueError::Log(LogError::TooLarge) => refuse(beyond, Reason::named("TooLarge")),
        IssueError::Log(LogError::Append(AppendError::Full)) => {
            refuse(beyond, Reason::named("JournalFull"))
        }
        IssueError::Log(LogError::Append(AppendError::Failed)) => Stop::Room(journal),
        IssueError::Log(LogError::Memory) => Stop::Memory,
        _ => unreachable!(),
    }
}

/// The work of `issue-list J REQUESTS`. The text is made before the entries are added, so that
/// nothing takes memory after the append.
pub fn issue_list_on<'a, H: TreeHash, D: Disk>(
    alloc: Global,
    journal: &'a str,
    log: &mut Log<H, D, D>,
    requests: &Requests,
) -> Result<Answer, Stop<'a>>
    requires { IsReadyLog log.old }
    ensures works { HasWorkedOnLog journal.now (issue_list_says H.hash requests.now) log.old log.new
        (ending_of result) }
    ensures valid { StaysLog H.hash (issue_list_says H.hash requests.now) log.old log.new }
    ensures tiles { log_tiles_disk log.new ≡ log_tiles_disk log.old }
{
    log.law_sound();
    let requests = requests.as_slice();
    let text = lines_from(alloc, log.size(), requests.len() as u64)?;
    match authority_core::issue_list(alloc, log, requests) {
        Ok(_first) => Ok(Answer {
            status: Said::Done,
            text,
        }),
        Err(why) => Err(refuse_entries(journal, why)),
    }
}

// Why the table with this number is no request.
fn refuse_numbered<'a>(file: &'a str, why: RequestError, number: u64) -> Stop<'a>
    ensures { stop_ending result ≡ request_list_ending file.now
        (RequestListError.OfRequest why number) }
{
    let bad = Stopped::BadForm;
    match why {
        RequestError::NotToml => refuse_file(bad, file, Reason::with_number("NotToml", number)),
        RequestError::UnknownKey => {
            refuse_file(bad, file, Reason::with_number("UnknownKey", number))
        }
        RequestError::Missing(field) => {
            refuse_file(
                bad,
                file,
                Reason::with_name_and_number("Missing", field_name(field), number),
            )
        }
        RequestError::BadValue(field) => {
            refuse_file(
                bad,
                file,
                Reason::with_name_and_number("BadValue", field_name(field), number),
            )
        }
        RequestError::DatesReversed => {
            refuse_file(bad, file, Reason::with_number("DatesReversed", number))
        }
        RequestError::NoNames => refuse_file(bad, file, Reason::with_number("NoNames", number)),
        RequestError::Memory => refuse_file(bad, file, Reason::with_number("Memory", number)),
    }
}

// Why a file is no list of requests.
fn refuse_requests<'a>(file: &'a str, why: RequestListError) -> Stop<'a>
    ensures { stop_ending result ≡ request_list_ending file.now why }
{
    let bad = Stopped::BadForm;
    match why {
        RequestListError::NotToml => refuse_file(bad, file, Reason::named("NotToml")),
        RequestListError::UnknownKey => refuse_file(bad, file, Reason::named("UnknownKey")),
        RequestListError::Missing => {
            refuse_file(bad, file, Reason::with_name("Missing", "Requests"))
        }
        RequestListError::BadValue => {
            refuse_file(bad, file, Reason::with_name("BadValue", "Requests"))
        }
        RequestListError::OfRequest(why, number) => refuse_numbered(file, why, number),
        RequestListError::Memory => Stop::Memory,
    }
}

/// The command `issue-list J REQUESTS`.
pub fn issue_list<'a, H: TreeHash, R: Room>(
    alloc: Global,
    room: &mut R,
    journal: &'a str,
    file: &'a str,
) -> Result<Answer, Stop<'a>>
    requires { R.opened room.old + 1 < 2 ^ 32 }
    ensures serves { HasServedBeside R.Room R.Dsk.Disk
        (journal.now ∷ tiles_name journal.now ∷ file.now ∷ []) journal.now (tiles_name journal.now)
        (issue_list_outcome H.hash journal.now file.now (R.file room.old))
        room.old room.new (ending_of result) }
    ensures valid { KeepsValid R.Room R.Dsk.Disk (IsLog H.hash) (journal.now ∷ [])
        (issue_list_outcome H.hash journal.now file.now (R.file room.old)) room.old room.new }
    ensures only_read { OnlyReadsBeside R.Room R.Dsk.Disk room.old room.new
        (tiles_name journal.now) }
    ensures stores { StoresBeside (HasTilesOf H.hash) (IsLog H.hash) R.Room R.Dsk.Disk
        room.old room.new (journal.now ∷ []) (tiles_name journal.now ∷ [])
        (issue_list_outcome H.hash journal.now file.now (R.file room.old)) }
    ensures spares { SparesTiles R.Room room.old room.new journal.now }
{
    let text = read_input(alloc, room, file, INPUT_LIMIT)?;
    match read_requests(alloc, text.as_slice()) {
        Ok(requests) => on_log::<H, R>(
            alloc,
            room,
            journal,
            Work::IssueList(Requests::from_vec(requests)),
        ),
        Err(why) => Err(refuse_requests(file, why)),
    }
}
