//! Laws of executions, of one journal, of a journal with its tiles, and of a mirror with a
//! cosigner: the clauses are the laws, and the functions do nothing.

ghost use Rattle.byte_formats.specs.Types.{Text};
ghost use Rattle.file_events.specs.Apart.{ClocksGoApart, OneByOneFails};
ghost use Rattle.file_events.specs.Histories.{ExecutionsAreHistories, HistoriesContinue};
ghost use Rattle.file_events.specs.Keys.{OneLevelUsesOnce, TwoLevelsUseOnce};
ghost use Rattle.file_events.specs.Laws.{DurableStay, HeldAreDurable, KeysAreOfOneMessage};
ghost use Rattle.file_events.specs.Laws.{RecoveredIsValid, ReleasedAreDurable};
ghost use Rattle.file_events.specs.Owners.{ExecutionsAgree, ExecutionsHold, JournalExecutions};
ghost use Rattle.file_events.specs.Owners.{JournalRunsMayBreak, LogRunsMayBreak};
ghost use Rattle.file_events.specs.Owners.{MirrorRunsMayBreak, NewTilesSurvive, RunsAreEvents};
ghost use Rattle.file_events.specs.Owners.{TilesSurvive};

use crate::{JournalRules, Programs};
use disk_core::Disk;

/// Whatever runs do with a journal, wherever they break off, and wherever the machine stops: the
/// records that a run found or made, if it came to its end, are a prefix of the records of each
/// crash state from then on; those that were released are among them; and whatever is recovered is
/// valid, so no journal is refused.
pub fn law_records_stand<D: Disk, J: JournalRules>()
    ensures stay { DurableStay D.Disk.may_leave J.valid }
    ensures held { HeldAreDurable D.Disk.may_leave J.valid }
    ensures released { ReleasedAreDurable D.Disk.may_leave J.valid }
    ensures valid { RecoveredIsValid D.Disk.may_leave J.valid }
{}

/// Where valid records use no one-time key twice, two records that runs held and that used one key
/// are one record, and so of one message.
pub fn law_keys_sign_one_message<D: Disk, J: JournalRules>()
    ensures { KeysAreOfOneMessage D.Disk.may_leave J.valid J.use_of }
{}

/// With one tree, and with two levels of trees, no key is used twice where the numbers of the
/// records count up.
pub fn law_counted_records_use_keys_once()
    ensures one { OneLevelUsesOnce }
    ensures two { TwoLevelsUseOnce }
{}

/// What became of a journal is a history of its records: from a run on that found or made some and
/// came to its end, and on from each history.
pub fn law_executions_are_histories<D: Disk, J: JournalRules>()
    ensures on { HistoriesContinue D.Disk.may_leave J.valid J.reaches }
    ensures begins { ExecutionsAreHistories D.Disk.may_leave J.valid J.reaches }
{}

/// Where runs of a program leave of a journal what their events leave of it, all that happens by
/// runs, stops, kills and changes of other files is an execution of the journal, and each of the
/// runs is one of the events. So the records that a run held are durable after it: those that it
/// found or made, if it came to its end. A record that such a run added is released if a byte of
/// its answer may have gone out.
pub fn law_executions_are_of_owners<P: Programs, J: JournalRules>()
    ensures executions { (name : Text) → JournalExecutions P.program J.valid name }
    ensures hold { (name : Text) → ExecutionsHold P.program J.valid name }
    ensures events { (name : Text) → RunsAreEvents P.program J.valid name }
{}

/// Whatever a crash leaves of a journal goes with whatever it leaves of the file of its tiles, in
/// each execution of a program whose runs leave both as they must, if it did so before and records
/// of the journal were durable. A new journal goes with any tiles.
pub fn law_tiles_survive<P: Programs, J: JournalRules>()
    ensures new { (name tiles : Text)
        → NewTilesSurvive P.program J.goes J.plain J.valid name tiles P.how_of }
    ensures survive { (name tiles : Text)
        → TilesSurvive P.program J.goes J.plain J.valid name tiles P.how_of }
{}

/// Whatever is recovered of a mirror agrees with whatever is recovered of its cosigner, in each
/// execution of a program whose runs do with both what they may, and leave both as they must, if it
/// did so before and records of both were durable.
pub fn law_mirrors_agree<P: Programs, M: JournalRules, C: JournalRules>()
    ensures { (mirror cosigner : Text) → ExecutionsAgree P.program M.agrees M.computed M.neutral
        M.valid C.valid mirror cosigner }
{}

/// A run that is killed leaves of its files what a run leaves that broke off, also where it would
/// have come to its end.
pub fn law_runs_may_break<P: Programs, J: JournalRules, C: JournalRules>()
    ensures journal { (name : Text) → JournalRunsMayBreak P.program J.valid name }
    ensures log { (name tiles : Text)
        → LogRunsMayBreak P.program J.goes J.plain J.valid name tiles P.how_of }
    ensures mirror { (mirror cosigner : Text) → MirrorRunsMayBreak P.program J.agrees J.computed
        J.neutral J.valid C.valid mirror cosigner }
{}

/// It isn't enough that a run that broke off leaves each file as it may be left by itself, nor that
/// a stop leaves each file as it was at some time of a run.
pub fn law_files_go_apart_one_by_one()
    ensures files { OneByOneFails }
    ensures clocks { ClocksGoApart }
{}
