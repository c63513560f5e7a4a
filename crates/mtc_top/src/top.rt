//! The program's one call: the arguments, the work, and what goes out.

ghost use Rattle.std.specs.Prelude.{◌≡◌, ◌<◌, ◌^◌, ◌+◌, [], ◌++◌, map, string_bytes, IfSome};
ghost use Rattle.std.specs.Prelude.{IsErr, false};
ghost use Rattle.mtc_words.specs.Commands.{command_value, journals_of, IsInRange};
ghost use Rattle.mtc_words.specs.Words.{command_of, is_named_twice, HaveOwnNames};
ghost use Rattle.mtc_command.specs.Answers.{ending_of};
ghost use Rattle.mtc_command.specs.Made.{HasKept};
ghost use Rattle.mtc_authority.specs.StoredTiles.{MakesTilesWhole};
ghost use Rattle.mtc_command.specs.Served.{HasDone, LeavesEach, OfEach, done_with};
ghost use Rattle.mtc_command.specs.Stored.{StoresBeside};
ghost use Rattle.mtc_command.specs.Valid.{KeepsValid};
ghost use Rattle.mtc_command.specs.Works.{ModelsNew};
ghost use Rattle.mtc_tiled.specs.Headers.{SparesTiles};
ghost use Rattle.mtc_mirror_steps.specs.SecondStands.{SecondStands};
ghost use Rattle.mtc_plans.specs.Cited.{command_outcome};
ghost use Rattle.mtc_plans.specs.Words.{streams};
ghost use Rattle.mtc_top.specs.Cited.{spoken_outcome};
ghost use Rattle.mtc_top.specs.Ended.{HasCarriedOut};
ghost use Rattle.mtc_top.specs.Facts.{facts, facts_of};
ghost use Rattle.mtc_top.specs.Run.{HasRun};

use crate::ending::Ended;
use crate::finish::{conclude, conclude_written};
use crate::refused_words::word_reason;
use mtc_authority::cert::cert;
use mtc_authority::certs::certs;
use mtc_authority::init_log::init_log;
use mtc_authority::issue::issue;
use mtc_authority::issue_list::issue_list;
use mtc_authority::tile_anew::tile_anew;
use mtc_authority::{Work, on_log, stream_log};
use mtc_command::{Answer, Stop, Stopped, refuse};
use mtc_cosigner::child::child;
use mtc_cosigner::export::export;
use mtc_cosigner::init_cosigner::init_cosigner;
use mtc_cosigner::keygen::keygen;
use mtc_cosigner::requests::{advance, cosign};
use mtc_drill::drill;
use mtc_help::{help, version};
use mtc_io::Sink;
use mtc_mirror::entries::mirror_entries;
use mtc_mirror::init::mirror_init;
use mtc_mirror::take::mirror_take;
use mtc_mirror::tile::mirror_tile;
use mtc_mirror_steps::{mirror_advance, mirror_cosign};
use mtc_monitor::held::held;
use mtc_monitor::monitor::{monitor, monitor_init};
use mtc_monitor::root::root;
use mtc_relying::audit::audit;
use mtc_relying::member::member;
use mtc_relying::quarrel::quarrel;
use mtc_relying::show::show;
use mtc_relying::trust::trust_landmarks as trust;
use mtc_relying::verify::verify;
use mtc_room::Room;
use mtc_words::{Command, WordError, command_word, read_words};
use std::alloc::Global;
use tree_core::TreeHash;

// Carries out a command that has no journal, and so only reads files, or none. The others don't get
// here.
fn perform_reading<'a, H: TreeHash, R: Room>(
    alloc: Global,
    room: &mut R,
    command: Command<'a>,
) -> Result<Answer, Stop<'a>>
    requires opened { R.opened room.old + 1 < 2 ^ 32 }
    requires range { IsInRange (command_value command) }
    requires alone { journals_of (command_value command) ≡ [] }
    ensures done { let asked = facts_of H.hash (command_value command.entry) in
        HasDone R.Room R.Dsk.Disk ⊥ (asked.journals ++ (asked.besides ++ asked.inputs))
        asked.journals asked.besides
        (command_outcome H.hash (command_value command.entry) (R.file room.old)) room.old room.new
        (ending_of result) }
    ensures valid { let asked = facts_of H.hash (command_value command.entry) in
        KeepsValid R.Room R.Dsk.Disk asked.Valid asked.journals
        (command_outcome H.hash (command_value command.entry) (R.file room.old))
        room.old room.new }
    ensures began { IfSome (facts_of H.hash (command_value command.entry)).makes (λ name.
        ModelsNew R.Room R.Dsk.Disk name room.old room.new (ending_of result)) }
    ensures whole { IfSome (facts_of H.hash (command_value command.entry)).whole (λ name.
        MakesTilesWhole H.hash R.Room R.Dsk.Disk room.old room.new name (ending_of result)) }
    ensures only_read { R.is_modelled room.old → LeavesEach R.Room R.Dsk.Disk room.old room.new
        (done_with (facts_of H.hash (command_value command.entry)).only_reads []) HasKept }
    ensures spares { let asked = facts_of H.hash (command_value command.entry) in
        OfEach (λ name did. SparesTiles R.Room room.old room.new name)
        (done_with asked.journals
        (command_outcome H.hash (command_value command.entry) (R.file room.old)).journals) }
    ensures second { let asked = facts_of H.hash (command_value command.entry) in
        R.is_modelled room.old → SecondStands R.Room R.Dsk.Disk room.old room.new
        (done_with asked.journals
        (command_outcome H.hash (command_value command.entry) (R.file room.old)).journals) }
    ensures stores { let asked = facts_of H.hash (command_value command.entry) in
        StoresBeside asked.goes asked.Valid R.Room R.Dsk.Disk room.old room.new
        asked.journals asked.besides
        (command_outcome H.hash (command_value command.entry) (R.file room.old)) }
{
    match command {
        Command::Member(file) => member::<H, R>(alloc, room, file),
        Command::Show(file) => show(alloc, room, file),
        Command::Verify(cert, store, now) => verify::<H, R>(alloc, room, cert, store, now),
        Command::Keygen(height, width, secret) => keygen(alloc, room, height, width, secret),
        Command::TrustLandmarks(list, most, items) => trust::<H, R>(alloc, room, list, most, items),
        Command::Audit(cert, store, now, entries, export) => {
            audit::<H, R>(alloc, room, cert, store, now, entries, export)
        }
        Command::Quarrel(export) => quarrel::<H, R>(alloc, room, export),
        Command::Drill(number) => drill::<H>(alloc, number),
        Command::Root(entries) => root::<H, R>(alloc, room, entries),
        Command::Held(export) => held::<H, R>(alloc, room, export),
        Command::MonitorInit(log) => monitor_init(alloc, log),
        Command::Monitor(state, watch, request, entries) => {
            monitor::<H, R>(alloc, room, state, watch, request, entries)
        }
        Command::Help => help(alloc),
        Command::Version => version(alloc),
        _ => unreachable!(),
    }
}

// Carries out a command whose text is written once all else is done. There is one arm for each,
// here or in `perform_reading`.
fn perform<'a, H: TreeHash, R: Room>(
    alloc: Global,
    room: &mut R,
    command: Command<'a>,
) -> Result<Answer, Stop<'a>>
    requires opened { R.opened room.old + 2 < 2 ^ 32 }
    requires range { IsInRange (command_value command) }
    requires own_names { HaveOwnNames (journals_of (command_value command)) }
    requires differ { is_named_twice (journals_of (command_value command)) ≡ false }
    requires kept { streams (command_value command) ≡ false }
    ensures done { let asked = facts_of H.hash (command_value command.entry) in
        HasDone R.Room R.Dsk.Disk ⊥ (asked.journals ++ (asked.besides ++ asked.inputs))
        asked.journals asked.besides
        (command_outcome H.hash (command_value command.entry) (R.file room.old)) room.old room.new
        (ending_of result) }
    ensures valid { let asked = facts_of H.hash (command_value command.entry) in
        KeepsValid R.Room R.Dsk.Disk asked.Valid asked.journals
        (command_outcome H.hash (command_value command.entry) (R.file room.old))
        room.old room.new }
    ensures began { IfSome (facts_of H.hash (command_value command.entry)).makes (λ name.
        ModelsNew R.Room R.Dsk.Disk name room.old room.new (ending_of result)) }
    ensures whole { IfSome (facts_of H.hash (command_value command.entry)).whole (λ name.
        MakesTilesWhole H.hash R.Room R.Dsk.Disk room.old room.new name (ending_of result)) }
    ensures only_read { R.is_modelled room.old → LeavesEach R.Room R.Dsk.Disk room.old room.new
        (done_with (facts_of H.hash (command_value command.entry)).only_reads []) HasKept }
    ensures spares { let asked = facts_of H.hash (command_value command.entry) in
        OfEach (λ name did. SparesTiles R.Room room.old room.new name)
        (done_with asked.journals
        (command_outcome H.hash (command_value command.entry) (R.file room.old)).journals) }
    ensures second { let asked = facts_of H.hash (command_value command.entry) in
        R.is_modelled room.old → SecondStands R.Room R.Dsk.Disk room.old room.new
        (done_with asked.journals
        (command_outcome H.hash (command_value command.entry) (R.file room.old)).journals) }
    ensures stores { let asked = facts_of H.hash (command_value command.entry) in
        StoresBeside asked.goes asked.Valid R.Room R.Dsk.Disk room.old room.new
        asked.journals asked.besides
        (command_outcome H.hash (command_value command.entry) (R.file room.old)) }
{
    match command {
        Command::InitLog(log, id, active, limit) => init_log(alloc, room, log, id, active, limit),
        Command::Issue(journal, request) => issue::<H, R>(alloc, room, journal, request),
        Command::Checkpoint(log) => on_log::<H, R>(alloc, room, log, Work::Checkpoint),
        Command::Consist(log, old, to) => on_log::<H, R>(alloc, room, log, Work::Consist(old, to)),
        Command::Subtree(log, start, end, size) => {
            on_log::<H, R>(alloc, room, log, Work::Subtree(start, end, size))
        }
        Command::InitCosigner(journal, id, log, top, low, width, secret) => {
            init_cosigner(alloc, room, journal, id, log, top, low, width, secret)
        }
        Command::Advance(journal, request) => advance::<H, R>(alloc, room, journal, request),
        Command::Child(journal) => child::<H, R>(alloc, room, journal),
        Command::Cosign(journal, request) => cosign::<H, R>(alloc, room, journal, request),
        Command::Landmark(log) => on_log::<H, R>(alloc, room, log, Work::Landmark),
        Command::Landmarks(log) => on_log::<H, R>(alloc, room, log, Work::Landmarks),
        Command::LightCert(log, index) => on_log::<H, R>(alloc, room, log, Work::LightCert(index)),
        Command::Cert(journal, index, start, end, signatures) => {
            cert::<H, R>(alloc, room, journal, index, start, end, signatures)
        }
        Command::IssueList(log, requests) => issue_list::<H, R>(alloc, room, log, requests),
        Command::LightCerts(log, first, last) => {
            on_log::<H, R>(alloc, room, log, Work::LightCerts(first, last))
        }
        Command::Certs(journal, first, last, start, end, signatures) => {
            certs::<H, R>(alloc, room, journal, first, last, start, end, signatures)
        }
        Command::Switch(log) => on_log::<H, R>(alloc, room, log, Work::Switch),
        Command::Tile(log) => on_log::<H, R>(alloc, room, log, Work::Tile),
        Command::TileAnew(log) => tile_anew::<H, R>(alloc, room, log),
        Command::MirrorInit(journal, id) => mirror_init(alloc, room, journal, id),
        Command::MirrorTake(journal, items) => mirror_take::<H, R>(alloc, room, journal, items),
        Command::MirrorTile(journal) => mirror_tile::<H, R>(alloc, room, journal),
        Command::MirrorAdvance(cosigner, mirror, size) => {
            mirror_advance::<H, R>(alloc, room, cosigner, mirror, size)
        }
        Command::MirrorCosign(cosigner, mirror, start, end) => {
            mirror_cosign::<H, R>(alloc, room, cosigner, mirror, start, end)
        }
        _ => perform_reading::<H, R>(alloc, room, command),
    }
}

// Carries out a command: one that may write while it reads writes its text itself.
fn carry_out<'a, H: TreeHash, R: Room, O: Sink>(
    alloc: Global,
    room: &mut R,
    command: Command<'a>,
    out: &mut O,
) -> Ended<'a>
    requires opened { R.opened room.old + 2 < 2 ^ 32 }
    requires range { IsInRange (command_value command) }
    requires own_names { HaveOwnNames (journals_of (command_value command)) }
    requires differ { is_named_twice (journals_of (command_value command)) ≡ false }
    ensures done { let asked = facts_of H.hash (command_value command.entry) in
        HasCarriedOut O.Sink out.old out.new asked.streams (λ ending.
        HasDone R.Room R.Dsk.Disk ⊥ (asked.journals ++ (asked.besides ++ asked.inputs))
        asked.journals asked.besides
        (command_outcome H.hash (command_value command.entry) (R.file room.old)) room.old room.new
        ending × (IfSome asked.makes (λ name.
        ModelsNew R.Room R.Dsk.Disk name room.old room.new ending)
        × IfSome asked.whole (λ name.
        MakesTilesWhole H.hash R.Room R.Dsk.Disk room.old room.new name ending))) result }
    ensures valid { let asked = facts_of H.hash (command_value command.entry) in
        KeepsValid R.Room R.Dsk.Disk asked.Valid asked.journals
        (command_outcome H.hash (command_value command.entry) (R.file room.old))
        room.old room.new }
    ensures only_read { R.is_modelled room.old → LeavesEach R.Room R.Dsk.Disk room.old room.new
        (done_with (facts_of H.hash (command_value command.entry)).only_reads []) HasKept }
    ensures spares { let asked = facts_of H.hash (command_value command.entry) in
        OfEach (λ name did. SparesTiles R.Room room.old room.new name)
        (done_with asked.journals
        (command_outcome H.hash (command_value command.entry) (R.file room.old)).journals) }
    ensures second { let asked = facts_of H.hash (command_value command.entry) in
        R.is_modelled room.old → SecondStands R.Room R.Dsk.Disk room.old room.new
        (done_with asked.journals
        (command_outcome H.hash (command_value command.entry) (R.file room.old)).journals) }
    ensures stores { let asked = facts_of H.hash (command_value command.entry) in
        StoresBeside asked.goes asked.Valid R.Room R.Dsk.Disk room.old room.new
        asked.journals asked.besides
        (command_outcome H.hash (command_value command.entry) (R.file room.old)) }
{
    match command {
        Command::Entries(log, size) => {
            let work = Work::Entries(size);
            Ended::Written(stream_log::<H, R, O>(alloc, room, log, work, out))
        }
        Command::EntriesFrom(log, first, to) => {
            let work = Work::EntriesFrom(first, to);
            Ended::Written(stream_log::<H, R, O>(alloc, room, log, work, out))
        }
        Command::Export(journal) => Ended::Written(export::<H, R, O>(alloc, room, journal, out)),
        Command::MirrorEntries(journal, size) => {
            Ended::Written(mirror_entries::<H, R, O>(alloc, room, journal, size, out))
        }
        _ => Ended::Kept(perform::<H, R>(alloc, room, command)),
    }
}

// Reads the arguments, and carries out what they say.
fn answer<'a, H: TreeHash, R: Room, O: Sink>(
    alloc: Global,
    words: &'a [String],
    room: &mut R,
    out: &mut O,
) -> Ended<'a>
    requires { R.opened room.old + 2 < 2 ^ 32 }
    ensures done { let said = command_of (map string_bytes words.now) in
        let asked = facts H.hash said in
        HasCarriedOut O.Sink out.old out.new asked.streams (λ ending.
        HasDone R.Room R.Dsk.Disk (IsErr said)
        (asked.journals ++ (asked.besides ++ asked.inputs)) asked.journals asked.besides
        (spoken_outcome H.hash said (R.file room.old)) room.old room.new ending
        × (IfSome asked.makes (λ name.
        ModelsNew R.Room R.Dsk.Disk name room.old room.new ending)
        × IfSome asked.whole (λ name.
        MakesTilesWhole H.hash R.Room R.Dsk.Disk room.old room.new name ending))) result }
    ensures valid { let said = command_of (map string_bytes words.now) in
        let asked = facts H.hash said in
        KeepsValid R.Room R.Dsk.Disk asked.Valid asked.journals
        (spoken_outcome H.hash said (R.file room.old)) room.old room.new }
    ensures only_read { R.is_modelled room.old → LeavesEach R.Room R.Dsk.Disk room.old room.new
        (done_with (facts H.hash (command_of (map string_bytes words.now))).only_reads []) HasKept }
    ensures spares { let said = command_of (map string_bytes words.now) in
        let asked = facts H.hash said in
        OfEach (λ name did. SparesTiles R.Room room.old room.new name)
        (done_with asked.journals (spoken_outcome H.hash said (R.file room.old)).journals) }
    ensures second { let said = command_of (map string_bytes words.now) in
        let asked = facts H.hash said in
        R.is_modelled room.old → SecondStands R.Room R.Dsk.Disk room.old room.new
        (done_with asked.journals (spoken_outcome H.hash said (R.file room.old)).journals) }
    ensures stores { let said = command_of (map string_bytes words.now) in
        let asked = facts H.hash said in
        StoresBeside asked.goes asked.Valid R.Room R.Dsk.Disk room.old room.new
        asked.journals asked.besides (spoken_outcome H.hash said (R.file room.old)) }
{
    match read_words(alloc, words) {
        Ok(command) => carry_out::<H, R, O>(alloc, room, command, out),
        Err(WordError::Memory) => Ended::Kept(Err(Stop::Memory)),
        Err(why) => Ended::Kept(Err(refuse(Stopped::BadWords, word_reason(why)))),
    }
}

/// Does all that the program does: reads the arguments of a command, carries it out over a file
/// system, and writes its text to `out` or a line to `err`. It closes everything that it opened.
/// Each file stays as it was but the command's journals and the files of their tiles, and none is
/// made but a new journal and such a file of tiles.
///
/// Answers the status. 0 the command did its work, 3 the judgement is against, and 10 two different
/// strings with one hash were found: each wrote to `out`. The others wrote a line to `err`: 1 the
/// arguments are no command; 2 a named file isn't in its grammar, or the file of the tiles of a log
/// or a mirror doesn't have what its journal says; 4 the log, the cosigner or the mirror doesn't
/// allow what is asked; 5 the file system failed; 6 `out` failed; 7 a named file isn't there, or
/// that of a new journal is there already; 8 memory was refused; 9 an input is over its limit, or a
/// log, a mirror or a journal takes no more. Tests come in the order of the program's steps: the
/// arguments, the input files, their grammars (a certificate's with its judgement), the journals,
/// each with its tiles, and the command's own. A failure of `err` changes no status. `entries`,
/// `entries-from`, `export` and `mirror-entries` write while they read their journal: with 5 and 8
/// a prefix of the text may have gone out, with 8 not its last byte. After it is opened that
/// journal is only read.
///
/// What follows of each run, and how it ends as steps of a party, says
/// `mtc_laws::law_runs_are_steps`.
pub fn run<H: TreeHash, R: Room, O: Sink, E: Sink>(
    alloc: Global,
    words: &[String],
    room: &mut R,
    out: &mut O,
    err: &mut E,
) -> u8
    requires { R.opened room.old ≡ 0 }
    ensures { HasRun H.hash R.Room R.Dsk.Disk O.Sink E.Sink (map string_bytes words.now)
        room.old room.new out.old out.new err.old err.new result }
{
    match answer::<H, R, O>(alloc, words, room, out) {
        Ended::Kept(ended) => conclude(command_word(words), ended, room.cause(), out, err),
        Ended::Written(ended) => { conclude_written(command_word(words), ended, room.cause(), err) }
    }
}
