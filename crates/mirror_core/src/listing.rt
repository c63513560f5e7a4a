//! The items of a mirror, written as they stand in the bodies of its Batches.

ghost use Rattle.std.specs.Prelude.{◌≡◌, ◌<◌, ◌≤◌, ◌+◌, ℕ, take, length, slice_index_or, flat_map};
ghost use Rattle.std.specs.Prelude.{Some, IfErr, IfSome};
ghost use Rattle.byte_formats.specs.Types.{Text};
ghost use Rattle.disk_core.specs.Times.{OnlyReads};
ghost use Rattle.issuance_log.specs.Batches.{leading_items};
ghost use Rattle.issuance_log.specs.Records.{item_text};
ghost use Rattle.journal_core.specs.Copies.{AppendsSome};
ghost use Rattle.journal_core.specs.Ends.{AreDurable, durable_records};
ghost use Rattle.journal_core.specs.Words.{disk_of, end_of, is_broken};
ghost use Rattle.mirror_core.specs.Places.{no_place, places_of_batches};
ghost use Rattle.mirror_core.specs.Records.{all_mirrored};
ghost use Rattle.mirror_core.specs.Refusals.{IsNoMirrorAnswer, MirrorCounts};
ghost use Rattle.mirror_core.specs.Written.{ItemsWentOut, SinkCounts};

use crate::bodies::{items_of, read_body};
use crate::error::MirrorError;
use crate::kept::BatchPlace;
use crate::record::next_item;
use disk_core::Disk;
use journal_core::Journal;
use mtc_io::{Failed, Sink, write_all};
use std::alloc::Global;

// The bytes of so many of the items that begin these bytes, or of all of them where they are fewer.
fn first_items(list: &[u8], count: u64) -> &[u8]
    ensures { result.now ≡ flat_map item_text (take count (leading_items list.now)) }
{
    let mut left = count;
    let mut rest = list;
    'items: while let Some((_entry, _key, later)) = next_item(rest) {
        if left == 0 {
            break;
        }
        left -= 1;
        rest = later;
    }
    &list[..list.len() - rest.len()]
}

/// Writes so many of the first items in the Batches at these places, which are read one by one, and
/// no further than these items go. The disk is only read.
pub(crate) fn write_first<D: Disk, O: Sink>(
    alloc: Global,
    journal: &mut Journal<D>,
    places: &[BatchPlace],
    size: u64,
    out: &mut O,
) -> Result<Result<(), Failed>, MirrorError>
    requires there { (i : ℕ) → i < length places.now
        → (slice_index_or places.now i no_place).place + 5 ≤ end_of journal.old }
    requires durable { (b : Text) → D.contents (disk_of journal.old) ≡ Some b
        → AreDurable (end_of journal.old) b }
    ensures written { IfSome (durable_records journal.old) (λ list.
        places.now ≡ places_of_batches list → size ≤ length (all_mirrored list)
        → ItemsWentOut (O.taken out.old) (O.taken out.new)
        (flat_map item_text (take size (all_mirrored list))) result) }
    ensures grows { AppendsSome (O.taken out.old) (O.taken out.new) }
    ensures why { IfErr result IsNoMirrorAnswer }
    ensures records { durable_records journal.new ≡ durable_records journal.old }
    ensures end { end_of journal.new ≡ end_of journal.old }
    ensures broken { is_broken journal.new ≡ is_broken journal.old }
    ensures only_reads { OnlyReads D.Disk (disk_of journal.old) (disk_of journal.new) }
    ensures cause { MirrorCounts (D.faults (disk_of journal.old)) (D.faults (disk_of journal.new))
        result }
    ensures took { SinkCounts (O.faults out.old) (O.faults out.new) result }
{
    'batches: for batch in places {
        if batch.first >= size {
            return Ok(Ok(()));
        }
        let body = read_body(alloc, journal, batch.place)?;
        match write_all(out, first_items(items_of(&body), size - batch.first)) {
            Ok(()) => {}
            Err(failed) => return Ok(Err(failed)),
        }
    }
    Ok(Ok(()))
}
