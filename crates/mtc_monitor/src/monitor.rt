//! The commands `monitor-init` and `monitor`: the state of a log without entries, and one run of a
//! monitor.

ghost use Rattle.std.specs.Prelude.{◌<◌, ◌^◌, [], ◌∷◌};
ghost use Rattle.byte_formats.specs.Types.{HashFunction, Text};
ghost use Rattle.cosigner_core.specs.Views.{advance_parts};
ghost use Rattle.entry_list.specs.Items.{ItemLists};
ghost use Rattle.entry_stream.specs.Streams.{AreItemsOf};
ghost use Rattle.mtc_command.specs.Answers.{ending_of, stop_ending};
ghost use Rattle.mtc_command.specs.Endings.{Replies};
ghost use Rattle.mtc_command.specs.Served.{HasAnswered};
ghost use Rattle.mtc_command.specs.Steps.{Outcome, with_bytes};
ghost use Rattle.monitor_core.specs.Monitor.{monitor_of};
ghost use Rattle.monitor_core.specs.Watched.{HasWatched};
ghost use Rattle.mtc_monitor.specs.Asked.{AsksFor};
ghost use Rattle.mtc_monitor.specs.MonitorOutcome.{kept_says, monitor_init_outcome};
ghost use Rattle.mtc_monitor.specs.MonitorOutcome.{monitor_outcome, new_items_say, new_size_says};
ghost use Rattle.mtc_monitor.specs.MonitorOutcome.{run_says, watch_says};

use crate::reasons::{run_reason, text_reason};
use cosigner_core::{AdvanceRequest, read_advance};
use entry_list::ItemsError;
use monitor_core::{
    MonitorError, Run, State, TextError, Watch, read_state, read_watch, write_found, write_state,
};
use mtc_command::{
    Answer, INPUT_LIMIT, LIST_LIMIT, Said, Stop, Stopped, read_input, refuse, refuse_file,
};
use mtc_lines::{form_reason, items_reason};
use mtc_room::Room;
use mtc_streams::fold_input;
use std::alloc::Global;
use tls_wire::AnchorId;
use tree_core::TreeHash;

/// The command `monitor-init LOGID`.
pub fn monitor_init<'a>(alloc: Global, log: AnchorId) -> Result<Answer, Stop<'a>>
    ensures { Replies (monitor_init_outcome log).answer (ending_of result) }
{
    Ok(Answer {
        status: Said::Done,
        text: write_state(alloc, &State::empty(alloc, log))?,
    })
}

// What the files say beside the entries.
#[derive(Drop)]
struct Asked<'b> {
    state: State,
    watch: Watch,
    request: AdvanceRequest<'b>,
}

// Reads the request.
fn request_asked<'a, 'b>(
    state: State,
    watch: Watch,
    request: &'a str,
    form: &'b [u8],
) -> Result<Asked<'b>, Stop<'a>>
    ensures asked { (h : HashFunction) (entries bytes : Text) → AsksFor h entries bytes
        (new_size_says h state watch request.now form.now entries bytes) result }
{
    match read_advance(form) {
        Ok(request) => Ok(Asked {
            state,
            watch,
            request,
        }),
        Err(why) => Err(refuse_file(Stopped::BadForm, request, form_reason(why))),
    }
}

// Reads the domains, and then the request.
fn watch_asked<'a, 'b>(
    alloc: Global,
    state: State,
    watch: &'a str,
    text: &[u8],
    request: &'a str,
    form: &'b [u8],
) -> Result<Asked<'b>, Stop<'a>>
    ensures { (h : HashFunction) (entries bytes : Text) → AsksFor h entries bytes
        (watch_says h state watch.now text.now request.now form.now entries bytes) result }
{
    match read_watch(alloc, text) {
        Ok(domains) => request_asked(state, domains, request, form),
        Err(TextError::Memory) => Err(Stop::Memory),
        Err(why) => Err(refuse_file(Stopped::BadForm, watch, text_reason(why))),
    }
}

// Reads the state, and then the domains and the request.
fn read_forms<'a, 'b>(
    alloc: Global,
    state: &'a str,
    line: &[u8],
    watch: &'a str,
    text: &[u8],
    request: &'a str,
    form: &'b [u8],
) -> Result<Asked<'b>, Stop<'a>>
    ensures { (h : HashFunction) (entries bytes : Text) → AsksFor h entries bytes
        (kept_says h state.now line.now watch.now text.now request.now form.now entries bytes)
        result }
{
    match read_state(alloc, line) {
        Ok(kept) => watch_asked(alloc, kept, watch, text, request, form),
        Err(TextError::Memory) => Err(Stop::Memory),
        Err(why) => Err(refuse_file(Stopped::BadForm, state, text_reason(why))),
    }
}

// What a run found that took all entries.
fn run_answer<'a, H: TreeHash>(
    alloc: Global,
    run: Run<H>,
    request: &AdvanceRequest<'_>,
) -> Result<Answer, Stop<'a>>
    ensures { (items : ItemLists) → HasWatched H.hash run items.entries
        → Replies (run_says (monitor_of H.hash run.state run.watch
        (advance_parts request.now).log (advance_parts request.now).size
        (advance_parts request.now).root (advance_parts request.now).proof
        items.entries)).answer (ending_of result) }
{
    match run.found(request.log, request.size, &request.root, request.proof) {
        Ok(found) => Ok(Answer {
            status: Said::Done,
            text: write_found(alloc, &found)?,
        }),
        Err(MonitorError::Memory) => Err(Stop::Memory),
        Err(why) => Err(refuse(Stopped::NotAllowed, run_reason(why))),
    }
}

// The same, unless the entries have a fault.
fn new_items_answer<'a, H: TreeHash>(
    alloc: Global,
    entries: &'a str,
    counted: Result<u64, ItemsError>,
    run: Run<H>,
    request: &AdvanceRequest<'_>,
) -> Result<Answer, Stop<'a>>
    ensures { (bytes : Text)
        → AreItemsOf H.hash (λ items. HasWatched H.hash run items.entries) counted bytes
        → Replies (new_items_say H.hash run.state run.watch (advance_parts request.now)
        entries.now bytes).answer (ending_of result) }
{
    match counted {
        Ok(_) => run_answer(alloc, run, request),
        Err(why) => Err(refuse_file(Stopped::BadForm, entries, items_reason(why))),
    }
}

// Reads the entries, and runs the monitor.
fn watched<'a, H: TreeHash, R: Room>(
    alloc: Global,
    room: &mut R,
    entries: &'a str,
    asked: Asked<'_>,
) -> Result<Answer, Stop<'a>>
    requires { R.opened room.old < 2 ^ 32 }
    ensures { HasAnswered R.Room R.Dsk.Disk (entries.now ∷ [])
        (with_bytes 8589934592 entries.now (R.file room.old entries.now)
        (new_items_say H.hash asked.entry.state asked.entry.watch
        (advance_parts asked.entry.request) entries.now)) room.old room.new (ending_of result) }
{
    let mut run: Run<H> = Run::new(alloc, asked.state, asked.watch);
    let counted = fold_input::<H, _, _>(alloc, room, entries, LIST_LIMIT, &mut run)?;
    new_items_answer(alloc, entries, counted, run, &asked.request)
}

// Reads the entries, and then stops.
fn unwatched<'a, H: TreeHash, R: Room>(
    alloc: Global,
    room: &mut R,
    entries: &'a str,
    stop: Stop<'a>,
) -> Result<Answer, Stop<'a>>
    requires { R.opened room.old < 2 ^ 32 }
    ensures { (wanted : Text → Outcome)
        → ((bytes : Text) → Replies (wanted bytes).answer (stop_ending stop.entry))
        → HasAnswered R.Room R.Dsk.Disk (entries.now ∷ [])
        (with_bytes 8589934592 entries.now (R.file room.old entries.now) wanted) room.old room.new
        (ending_of result) }
{
    let _read = fold_input::<H, _, _>(alloc, room, entries, LIST_LIMIT, &mut ())?;
    Err(stop)
}

/// The command `monitor STATE WATCH REQUEST ENTRIES`. The answer is as if all files were read, then
/// the state tested, the domains, the request and the entries, and the monitor run last. The
/// entries are read as a stream.
pub fn monitor<'a, H: TreeHash, R: Room>(
    alloc: Global,
    room: &mut R,
    state: &'a str,
    watch: &'a str,
    request: &'a str,
    entries: &'a str,
) -> Result<Answer, Stop<'a>>
    requires { R.opened room.old < 2 ^ 32 }
    ensures { HasAnswered R.Room R.Dsk.Disk
        (state.now ∷ watch.now ∷ request.now ∷ entries.now ∷ [])
        (monitor_outcome H.hash state.now watch.now request.now entries.now (R.file room.old))
        room.old room.new (ending_of result) }
{
    let kept = read_input(alloc, room, state, INPUT_LIMIT)?;
    let domains = read_input(alloc, room, watch, INPUT_LIMIT)?;
    let form = read_input(alloc, room, request, INPUT_LIMIT)?;
    match read_forms(
        alloc,
        state,
        kept.as_slice(),
        watch,
        domains.as_slice(),
        request,
        form.as_slice(),
    ) {
        Ok(asked) => watched::<H, R>(alloc, room, entries, asked),
        Err(stop) => unwatched::<H, R>(alloc, room, entries, stop),
    }
}
