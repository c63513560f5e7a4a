//! Laws of runs, and of executions of runs and stops: the clauses are the laws, and the functions
//! do nothing, but that one calls another law.

ghost use Rattle.mtc_laws.specs.AuditLaws.{AuditsDecide, AuditsStand};
ghost use Rattle.mtc_laws.specs.QuarrelLaws.{TwoSignaturesCollide};
ghost use Rattle.mtc_laws.specs.ExecutionLaws.{AddedEntriesStand, ExecutionsAreOfFiles};
ghost use Rattle.mtc_laws.specs.ExecutionLaws.{ExecutionsHaveHistories};
ghost use Rattle.mtc_laws.specs.ExecutionLaws.{EntriesStand};
ghost use Rattle.mtc_laws.specs.ExecutionLaws.{ReleasedStand, ReleasedWasHeld};
ghost use Rattle.mtc_laws.specs.ExecutionLaws.{JournalsAreOfParties, JournalsAreRead};
ghost use Rattle.mtc_laws.specs.ExecutionLaws.{KeysSignOnce, KeysSignOneMessage};
ghost use Rattle.mtc_laws.specs.ExecutionLaws.{MirroredItemsStand, RecoveredListsGrow};
ghost use Rattle.mtc_top.specs.Executions.{program};
ghost use Rattle.mtc_laws.specs.ExportLaws.{ExportsHoldTheSteps, ExportsOnlyGrow};
ghost use Rattle.mtc_laws.specs.PrintLaws.{IndicesArePrinted, IssuedEntriesStand, OnlyCosignSigns};
ghost use Rattle.mtc_laws.specs.PrintLaws.{SignaturesArePrinted, SignaturesStand};
ghost use Rattle.mtc_laws.specs.PrintLaws.{SwitchesArePrinted, SwitchesStand};
ghost use Rattle.mtc_laws.specs.Promise.{KeepsItsPromise};
ghost use Rattle.mtc_laws.specs.RoomLaws.{JournalsAreOneHistory};
ghost use Rattle.mtc_laws.specs.RunLaws.{PrefixesAreRuns, RunsShow, RunsAreSteps};
ghost use Rattle.mtc_laws.specs.StatusLaws.{MisreadFilesAreInputs};
ghost use Rattle.mtc_laws.specs.TileLaws.{NoTileIsBad, TilesSurviveStops};

use issuance_log::laws::law_records_keep_to_the_rules;
use mirror_core::laws::law_records_determine_the_items;
use mtc_io::Sink;
use mtc_room::Room;
use tree_core::TreeHash;

/// What follows of each run: how it may end, and that it is steps of each party whose journal it
/// works on. If a byte may have gone out, every crash state holds a record that the run added.
pub fn law_runs_are_steps<H: TreeHash, R: Room, O: Sink, E: Sink>()
    ensures shows { RunsShow H.hash R.Room R.Dsk.Disk O.Sink E.Sink }
    ensures steps { RunsAreSteps H.hash (program H.hash R.Room R.Dsk.Disk O.Sink E.Sink) }
{}

/// Once a byte of a run went out, how much of its text went out does not affect the files. If
/// standard output failed after a prefix of the text, that is a run with status 6 that leaves the
/// same file system. So a stop of the machine while the text goes out is such a run, and then a
/// stop.
pub fn law_runs_may_lose_their_text<H: TreeHash, R: Room, O: Sink, E: Sink>()
    ensures { PrefixesAreRuns H.hash R.Room R.Dsk.Disk O.Sink E.Sink }
{}

/// An execution is of a file, and not of a name: one of the journal of a name is one of each other
/// name of that place, with the same events and crash states. So each law of executions is of every
/// name that leads to the file.
pub fn law_executions_are_of_files<H: TreeHash, R: Room, O: Sink, E: Sink>()
    ensures { ExecutionsAreOfFiles H.hash (program H.hash R.Room R.Dsk.Disk O.Sink E.Sink) }
{}

/// From a run on that made or opened a journal, whatever runs there are by any arguments, wherever
/// they fail, wherever the machine stops between two runs or in the middle of one, and wherever the
/// program is killed in one: what became of the journal is a history of its party.
pub fn law_executions_have_histories<H: TreeHash, R: Room, O: Sink, E: Sink>()
    ensures { ExecutionsHaveHistories H.hash (program H.hash R.Room R.Dsk.Disk O.Sink E.Sink) }
{}

/// Whatever journals a file system has, each from a run on that made or opened it: what became of
/// all of them is one history of their parties.
pub fn law_executions_make_one_history<H: TreeHash, R: Room, O: Sink, E: Sink>()
    ensures { JournalsAreOneHistory H.hash (program H.hash R.Room R.Dsk.Disk O.Sink E.Sink) }
{}

/// In no execution do two records of a cosigner's journal use the same one-time key, of its only
/// tree, of the upper tree or of a lower one: of a journal that may be recovered the i-th Sign
/// record, counted from 0, has the number i, and so has the i-th Child record. If two of the
/// records that runs of the execution found or added use one key of the journal, they are one
/// record, and so of one message. The released records are among them.
pub fn law_no_one_time_key_signs_twice<H: TreeHash, R: Room, O: Sink, E: Sink>()
    ensures records { KeysSignOnce H.hash (program H.hash R.Room R.Dsk.Disk O.Sink E.Sink) }
    ensures messages { KeysSignOneMessage H.hash (program H.hash R.Room R.Dsk.Disk O.Sink E.Sink) }
{}

/// If a run that added a record did its work, or a byte of it may have gone out, it ended with
/// another status than 5 and 8. A byte may have gone out if standard output took one, or if it
/// failed and the model doesn't know what it took. So its record is among those that the run found
/// or added, and each crash state afterwards represents records. These begin with those that were
/// there, and that one.
pub fn law_released_records_stand<H: TreeHash, R: Room, O: Sink, E: Sink>()
    ensures held { ReleasedWasHeld H.hash (program H.hash R.Room R.Dsk.Disk O.Sink E.Sink) }
    ensures stand { ReleasedStand H.hash (program H.hash R.Room R.Dsk.Disk O.Sink E.Sink) }
{}

/// Each crash state represents records. What a run found in the journal before, or made of it, is a
/// prefix of them, whatever went out of the run, unless it ended with status 5 or 8 before a byte
/// went out.
pub fn law_recovered_lists_only_grow<H: TreeHash, R: Room, O: Sink, E: Sink>()
    ensures { RecoveredListsGrow H.hash (program H.hash R.Room R.Dsk.Disk O.Sink E.Sink) }
{}

/// Each entry of a log that a run found or added keeps its index, with its key, in each log that
/// may be recovered afterwards. The entry that a run added has as its index the number of entries
/// before it.
pub fn law_entries_keep_their_indices<H: TreeHash, R: Room, O: Sink, E: Sink>()
    ensures found { EntriesStand H.hash (program H.hash R.Room R.Dsk.Disk O.Sink E.Sink) }
    ensures added { AddedEntriesStand H.hash (program H.hash R.Room R.Dsk.Disk O.Sink E.Sink) }
{}

/// A mirror keeps its log, and each item that a run found or added, at its index, in each mirror
/// that may be recovered afterwards.
pub fn law_mirrors_keep_their_indices<H: TreeHash, R: Room, O: Sink, E: Sink>()
    ensures { MirroredItemsStand H.hash (program H.hash R.Room R.Dsk.Disk O.Sink E.Sink) }
{}

/// Each journal that a run made or opened, and ended with another status than 5 and 8 or after a
/// byte went out, is that of a log, a cosigner or a mirror, so the laws of executions are of each
/// of them, from that run on.
pub fn law_journals_are_of_parties<H: TreeHash, R: Room, O: Sink, E: Sink>()
    ensures { JournalsAreOfParties H.hash (program H.hash R.Room R.Dsk.Disk O.Sink E.Sink) }
{}

/// No journal that an execution has reached is refused: what a crash may leave of it, and what the
/// file system has of it, as the model knows it, is read as the log, the cosigner or the mirror
/// with records that follow the rules.
pub fn law_no_journal_is_refused<H: TreeHash, R: Room, O: Sink, E: Sink>()
    ensures { JournalsAreRead H.hash (program H.hash R.Room R.Dsk.Disk O.Sink E.Sink) }
{}

/// A run of a command on one journal that opens the one that an execution has reached, as that of
/// its log, its cosigner or its mirror, ends with status 2 only for an input of its command, or for
/// the file of the tiles, if that doesn't have a tile of the last size. So it never does if the
/// command has no input and the file has the tiles. Of `mirror-advance` and `mirror-cosign`, which
/// work on two journals, the module `mirrors` says it.
pub fn law_misread_files_are_inputs<H: TreeHash, R: Room, O: Sink, E: Sink>()
    ensures { MisreadFilesAreInputs H.hash (program H.hash R.Room R.Dsk.Disk O.Sink E.Sink)
        E.Sink }
{}

/// Tiles survive a stop. This holds in each execution of a log's or a mirror's journal and of the
/// file of its tiles that begins with a run that made the journal, or that found its first record
/// alone: whatever runs there are, wherever they fail or are killed, and wherever the machine
/// stops. Whatever a crash leaves of both files, the one has all tiles of the last size in the
/// other. So no run of a command on this journal alone reports a bad tile: with status 2 it is
/// about a file that it reads. Of `mirror-advance` and `mirror-cosign`, which work on two journals,
/// [`law_misread_tiles_are_of_mirrors`](crate::mirrors::law_misread_tiles_are_of_mirrors) says it.
pub fn law_tiles_survive_stops<H: TreeHash, R: Room, O: Sink, E: Sink>()
    ensures survive { TilesSurviveStops H.hash (program H.hash R.Room R.Dsk.Disk O.Sink E.Sink) }
    ensures none { NoTileIsBad H.hash (program H.hash R.Room R.Dsk.Disk O.Sink E.Sink) E.Sink }
{}

/// What goes out of a run of `export` after an execution of a cosigner's journal is the export of a
/// list with which the journal might have been recovered then, or with status 5, 6 or 8 a prefix of
/// it. It has the ids and the public key with which the journal began. It is read as the steps of
/// these records: each of them is allowed. The step of each record that a run found or added before
/// is one, and so each that was released.
pub fn law_exports_hold_what_went_out<H: TreeHash, R: Room, O: Sink, E: Sink>()
    ensures { ExportsHoldTheSteps H.hash (program H.hash R.Room R.Dsk.Disk O.Sink E.Sink) }
{}

/// The text of a run of `export` after an execution of a cosigner's journal begins with that of
/// each run of `export` in the execution, which is the export of the records that this run read. Of
/// its text a run prints all with status 0, and a prefix with 5, 6 and 8. Over any output the run
/// reads the records that each of those read and a rest after them, and its text has the rest more.
/// So if an export that was printed with status 0 doesn't begin with an earlier one, an old copy
/// was restored, or the journal was damaged.
pub fn law_exports_only_grow<H: TreeHash, R: Room, O: Sink, E: Sink>()
    ensures { ExportsOnlyGrow H.hash (program H.hash R.Room R.Dsk.Disk O.Sink E.Sink) }
{}

/// A run of `audit` that ends with another status than 5, 6 and 8 prints that the entry stands, or
/// two different strings with one hash. Its four files are read, and the store accepts the
/// certificate: by a landmark, or by cosigners. Then one of those that count has signed the
/// accepted hash: a run of an execution of its journal found or added that record, and the export
/// file is what a run of `export` with status 0 printed after it. The list is the wanted one: it
/// has the landmark's hash, or the root of the last checkpoint of that export. The clause `stand`
/// says in addition of which lists the two strings are: the first is hashed for the list or a key
/// of it, the second for the certificate or in the cosigner's proofs.
pub fn law_audits_stand<H: TreeHash, R: Room, O: Sink, E: Sink>()
    ensures decide { AuditsDecide H.hash (program H.hash R.Room R.Dsk.Disk O.Sink E.Sink) }
    ensures stand { AuditsStand H.hash (program H.hash R.Room R.Dsk.Disk O.Sink E.Sink) }
{}

/// A cosigner that signed twice convicts itself. Let runs of an execution of its journal have found
/// or added the records of two signatures of one interval with different hashes, and let the export
/// file be what a run of `export` with status 0 printed after it. Then a run of `quarrel` over that
/// file prints two numbers of keys and two different strings with one hash, with status 10. Or it
/// ends with status 5, 6 or 8.
pub fn law_two_signatures_collide<H: TreeHash, R: Room, O: Sink, E: Sink>()
    ensures { TwoSignaturesCollide H.hash (program H.hash R.Room R.Dsk.Disk O.Sink E.Sink) }
{}

/// From the first byte on that may have gone out of `issue`, `switch`, `cosign` or `mirror-cosign`,
/// and with status 0, its record was added, and its request, if it has one, is what the file says
/// that its arguments name, or the one that is made of the mirror's items. What goes out of `issue`
/// is the index of the entry, which counts those before it. What goes out of `switch` is the number
/// of the entries before it. What goes out of `cosign` and `mirror-cosign` is the signature by the
/// one-time key whose number the record has, over the interval and the hash of the request. It is
/// the whole with status 0; with 6, the one other status, it is a prefix. Arguments that are no
/// command do no work, and nothing goes out. Of the commands that open a cosigner's journal, or are
/// given a secret file as such, only `cosign` and `mirror-cosign` print a signature by it.
/// `advance` prints the size in its request, `mirror-advance` the size in its arguments, and
/// `child` the number of the lower tree whose record it adds. `export` prints the ids, the public
/// key and the records after the first of those that it read, and `init-cosigner`, `init-cosigner2`
/// and `keygen` the public key of the secret file. Each journal that another command opens or makes
/// is a log's or a mirror's. Nothing is said of what goes out of those.
pub fn law_printed_texts_are_of_their_records<H: TreeHash, R: Room, O: Sink, E: Sink>()
    ensures indices { IndicesArePrinted H.hash (program H.hash R.Room R.Dsk.Disk O.Sink E.Sink) }
    ensures switches { SwitchesArePrinted H.hash (program H.hash R.Room R.Dsk.Disk O.Sink E.Sink) }
    ensures signatures { SignaturesArePrinted H.hash
        (program H.hash R.Room R.Dsk.Disk O.Sink E.Sink) }
    ensures secrets { OnlyCosignSigns H.hash (program H.hash R.Room R.Dsk.Disk O.Sink E.Sink) }
{
    law_records_determine_the_items();
}

/// This holds in each execution of a journal, and what is said of the record stays so. Each entry
/// of which a byte of the index may have gone out is in each log that may be recovered at the end
/// of the execution, at that index and with its key. Each such log was switched at the index of
/// which a byte may have gone out of `switch`. Each crash state of the journal represents records,
/// and if a byte of a signature may have gone out these begin with those that were there and the
/// signature's.
pub fn law_printed_texts_stand<H: TreeHash, R: Room, O: Sink, E: Sink>()
    ensures entries { IssuedEntriesStand H.hash (program H.hash R.Room R.Dsk.Disk O.Sink E.Sink) }
    ensures switches { SwitchesStand H.hash (program H.hash R.Room R.Dsk.Disk O.Sink E.Sink) }
    ensures signatures { SignaturesStand H.hash (program H.hash R.Room R.Dsk.Disk O.Sink E.Sink) }
{
    law_records_determine_the_items();
}

/// The promise as a whole. In no execution does a one-time key of a journal sign two messages. Each
/// byte that goes out of `cosign` or `mirror-cosign` is of the signature by the key whose number
/// its record has, over what the request file asks for, or over the mirror's items. Of the commands
/// that open a cosigner's journal, or are given a secret file as such, no other prints a signature
/// by it. Each crash state of a journal represents records, and what a run before found in it, or
/// made of it, is a prefix of these: so the record of each signature of which a byte may have gone
/// out is there. No journal is refused: each crash state is read as its log, its cosigner or its
/// mirror. A later export has the step of each of its records. If a store accepts a certificate by
/// a signature whose record a run of an execution held, or by a landmark, a run of `audit` over the
/// wanted list, and over an export that was printed after it, prints that the entry stands, or two
/// different strings with one hash. Or it ends with status 5, 6 or 8. If runs of an execution held
/// the records of two signatures of one interval with different hashes, a run of `quarrel` over a
/// later export prints two different strings with one hash, or ends so. What `cert` or `light-cert`
/// prints for an index that `issue` printed before, each run of `verify` accepts, by each store
/// that backs the certificate, at each time of the request's period, or it ends so.
pub fn law_the_whole_promise<H: TreeHash, R: Room, O: Sink, E: Sink>()
    ensures { KeepsItsPromise H.hash (program H.hash R.Room R.Dsk.Disk O.Sink E.Sink) }
{
    law_records_keep_to_the_rules();
    law_records_determine_the_items();
}
