//! Laws that lead from what runs print to what the promise supposes, and the headline above them.
//! The clauses are the laws, and the functions do nothing, but that some call other laws.

ghost use Rattle.mtc_top.specs.Executions.{program};
ghost use Rattle.mtc_headline.specs.Borne.{BorneSignaturesCount};
ghost use Rattle.mtc_headline.specs.Endings.{GoodRunsAnswer, HeardIsSent};
ghost use Rattle.mtc_headline.specs.Headline.{Headline, HeadlineFollows};
ghost use Rattle.mtc_headline.specs.Joints.{HeldIsRead, PrintedIsRecorded, VerifiedCanBeAudited};
ghost use Rattle.mtc_headline.specs.OneText.{OneKeySignsOneText};

use disk_core::Disk;
use file_events::Programs;
use mirror_core::laws::law_records_determine_the_items;
use mtc_io::Sink;
use mtc_laws::certificates::law_printed_signatures_count;
use mtc_laws::laws::law_the_whole_promise;
use mtc_room::Room;
use tree_core::TreeHash;

/// For whoever reads a law of runs that were heard: a run is heard exactly if it did its work, if
/// standard output took a byte of its answer, or if standard output failed and the model doesn't
/// know what it took.
pub fn law_heard_runs_are_sent()
    ensures { HeardIsSent }
{}

/// For a cosigner: each run of `cosign` or `mirror-cosign` in an execution of its journal, of which
/// a byte may have gone out, has signed a request, and the execution held the record of that
/// signature's interval and hash.
pub fn law_printed_is_recorded<H: TreeHash, R: Room, O: Sink, E: Sink>()
    ensures { PrintedIsRecorded H.hash (program H.hash R.Room R.Dsk.Disk O.Sink E.Sink) }
{
    law_records_determine_the_items();
}

/// For whoever keeps a journal: whatever a crash leaves of it is opened as its log, its cosigner or
/// its mirror, with records that begin with all that a run of the execution found in it or made of
/// it.
pub fn law_held_is_read<H: TreeHash, R: Room, O: Sink, E: Sink>()
    ensures { HeldIsRead H.hash (program H.hash R.Room R.Dsk.Disk O.Sink E.Sink) }
{}

/// For an auditor: if a run of `verify` accepted a certificate, with status 0, an audit of the same
/// bytes, by the same store and at the same time, takes it as accepted.
pub fn law_verified_can_be_audited<H: TreeHash, R: Room, O: Sink, E: Sink>()
    ensures { VerifiedCanBeAudited H.hash (program H.hash R.Room R.Dsk.Disk O.Sink E.Sink) }
{}

/// For each user: a run that finds memory, and that no file and no standard output fails, ends with
/// another status than 5 (a file failed), 6 (standard output failed) and 8 (no memory).
pub fn law_good_runs_answer<H: TreeHash, R: Room, O: Sink, E: Sink>()
    ensures { GoodRunsAnswer (program H.hash R.Room R.Dsk.Disk O.Sink E.Sink) }
{}

/// For a cosigner: no one-time key signs two texts. If a byte may have gone out of two runs of an
/// execution that sign, and their records have one number, both signed one interval with one hash,
/// and one text went out of both.
pub fn law_one_key_signs_one_text<H: TreeHash, R: Room, O: Sink, E: Sink>()
    ensures { OneKeySignsOneText H.hash (program H.hash R.Room R.Dsk.Disk O.Sink E.Sink) }
{
    law_records_determine_the_items();
}

/// For a relying party: if its store accepted a certificate by cosigners, the proof has the
/// signature that a run of `cosign` or `mirror-cosign` handed out, over the accepted interval with
/// the accepted hash, and a rule of the store names that cosigner, then the store counted it.
pub fn law_borne_signatures_count<H: TreeHash, R: Room, O: Sink, E: Sink>()
    ensures { BorneSignaturesCount H.hash (program H.hash R.Room R.Dsk.Disk O.Sink E.Sink) }
{
    law_printed_signatures_count::<H, R, O, E>();
}

/// For whoever checks the chain: of any program, the headline follows from the promise as a whole
/// and the five laws above, by their names alone.
pub fn law_the_headline_follows<H: TreeHash, P: Programs>()
    ensures { HeadlineFollows H.hash P.program }
{}

/// The headline, for cosigners, relying parties and auditors. In each execution of a cosigner's
/// journal no one-time key signs twice, and all that goes out by one key is of one text. If a byte
/// may have gone out of a run of `cosign` or `mirror-cosign`, the record of its signature is read
/// in whatever a crash leaves of the journal.
///
/// Let a run of `verify` with status 0 have accepted a certificate by that signature, or by a
/// landmark. Then each run of `audit` over the same bytes, by the same store and at the same time,
/// which finds memory and which no file and no standard output fails, prints that the entry stands
/// at its index, and there it is; or it prints two different strings with one hash. For a signature
/// its list of entries has to begin with those of the last checkpoint of a later export; for a
/// landmark the list has the landmark's hash.
pub fn law_the_headline<H: TreeHash, R: Room, O: Sink, E: Sink>()
    ensures { Headline H.hash (program H.hash R.Room R.Dsk.Disk O.Sink E.Sink) }
{
    law_the_whole_promise::<H, R, O, E>();
    law_printed_is_recorded::<H, R, O, E>();
    law_verified_can_be_audited::<H, R, O, E>();
    law_held_is_read::<H, R, O, E>();
    law_one_key_signs_one_text::<H, R, O, E>();
    law_good_runs_answer::<H, R, O, E>();
}
