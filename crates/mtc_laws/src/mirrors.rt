//! What a mirror has its cosigner add, the agreement of both whatever comes, and status 2 of such a
//! command; and what becomes of the items that `mirror-take` took. The clauses are the laws, and
//! the functions do nothing.

ghost use Rattle.mtc_top.specs.Executions.{program};
ghost use Rattle.mtc_laws.specs.MirrorAgreement.{MirrorsMayBreak, MirrorsAgree};
ghost use Rattle.mtc_laws.specs.MirrorAgreement.{MirrorsAreNeverForeign};
ghost use Rattle.mtc_laws.specs.MirrorLaws.{NoMirrorTileIsBad, StepsAreAsked, TilesAreMisread};
ghost use Rattle.mtc_laws.specs.TakenLaws.{MirroredSizesArePrinted, TakenItemsStand};

use disk_core::Disk;
use mirror_core::laws::{
    law_batches_are_the_longest, law_records_determine_the_items, law_the_first_difference_is_first,
};
use mtc_io::Sink;
use mtc_room::Room;
use tree_core::TreeHash;

/// From the first byte on that may have gone out of `mirror-advance` or `mirror-cosign`, and with
/// status 0, the record was added to the cosigner's journal that the mirror asks of it: an Advance
/// to as many of the mirror's first entries as the arguments say, or a Sign of the interval that
/// they say, of those that the cosigner holds. If the records of both agreed before, they do so
/// with that record.
pub fn law_mirrors_ask_each_step<H: TreeHash, R: Room, O: Sink, E: Sink>()
    ensures { StepsAreAsked H.hash (program H.hash R.Room R.Dsk.Disk O.Sink E.Sink) }
{
    law_records_determine_the_items();
}

/// A run of `mirror-advance` or `mirror-cosign` that opens the journals that executions have
/// reached, that of a cosigner and that of a mirror, ends with status 2 only for the file of the
/// mirror's tiles, if that doesn't have a tile of the last size. If no other program wrote that
/// file, from the mirror's first record on, it never ends so.
pub fn law_misread_tiles_are_of_mirrors<H: TreeHash, R: Room, O: Sink, E: Sink>()
    ensures misread { TilesAreMisread H.hash (program H.hash R.Room R.Dsk.Disk O.Sink E.Sink)
        E.Sink }
    ensures none { NoMirrorTileIsBad H.hash (program H.hash R.Room R.Dsk.Disk O.Sink E.Sink) }
{}

/// A mirror and a cosigner whose journals are two files, from any time on where each crash state of
/// the one represents some records, each of the other some, and these agree, as those of a new
/// mirror and of a new cosigner of one log do: each root and hash in the cosigner's records is of
/// the mirror's entries. If each run that opens the cosigner's journal is `mirror-advance` or
/// `mirror-cosign` with the mirror's journal, or `child`, or only reads it, all that is recovered
/// of both agrees after each execution, whatever runs fail or are killed, and wherever the machine
/// stops. So an audit (`AuditCase`) of all entries that are recovered of the mirror, with all steps
/// that are recovered of the cosigner, never finds that the list is another one, if the certificate
/// was accepted by cosigners.
///
/// Of a killed program it is supposed that it leaves of both at once what a run leaves that broke
/// off, and that a record of it is a Child or one that the mirror asks. Each run that keeps to the
/// above leaves this, whatever its status.
pub fn law_cosigners_agree_with_mirrors<H: TreeHash, R: Room, O: Sink, E: Sink>()
    ensures agree { MirrorsAgree H.hash (program H.hash R.Room R.Dsk.Disk O.Sink E.Sink) }
    ensures never_foreign { MirrorsAreNeverForeign H.hash
        (program H.hash R.Room R.Dsk.Disk O.Sink E.Sink) }
    ensures killed { MirrorsMayBreak H.hash (program H.hash R.Room R.Dsk.Disk O.Sink E.Sink) }
{
    law_records_determine_the_items();
}

/// What goes out of `mirror-take`, from the first byte on that may have gone out, and with status
/// 0, is of the line `mirrored SIZE`: the whole with status 0, and else a prefix. The run read a
/// list of items from the file that its arguments name, and added a record to the mirror: the
/// mirror's items, with those of the record, are the first SIZE items of the list, and more than
/// the mirror had. In each execution of the mirror's journal these are the first SIZE items of each
/// mirror that may be recovered at its end, so each keeps its index.
pub fn law_taken_items_stand<H: TreeHash, R: Room, O: Sink, E: Sink>()
    ensures printed { MirroredSizesArePrinted H.hash
        (program H.hash R.Room R.Dsk.Disk O.Sink E.Sink) }
    ensures stand { TakenItemsStand H.hash (program H.hash R.Room R.Dsk.Disk O.Sink E.Sink) }
{
    law_the_first_difference_is_first();
    law_batches_are_the_longest();
}
