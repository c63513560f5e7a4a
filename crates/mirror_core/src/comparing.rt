//! The items of a mirror beside those that are given.

ghost use Rattle.std.specs.Prelude.{◌≡◌, ◌<◌, ◌≤◌, ◌+◌, ℕ, drop, length, min, slice_index_or, None};
ghost use Rattle.std.specs.Prelude.{Some, IfErr, IfOk, IfSome};
ghost use Rattle.byte_formats.specs.Types.{Text};
ghost use Rattle.disk_core.specs.Times.{OnlyReads};
ghost use Rattle.entry_list.specs.Items.{item_pair};
ghost use Rattle.issuance_log.specs.Batches.{leading_items};
ghost use Rattle.journal_core.specs.Ends.{AreDurable, durable_records};
ghost use Rattle.journal_core.specs.Words.{disk_of, end_of, is_broken};
ghost use Rattle.mirror_core.specs.Places.{no_place, places_of_batches};
ghost use Rattle.mirror_core.specs.Records.{all_mirrored};
ghost use Rattle.mirror_core.specs.Refusals.{IsNoMirrorAnswer, MirrorCounts, difference_from};
ghost use Rattle.mirror_core.specs.Refusals.{first_difference, is_same_item, pairs_of};

use crate::bodies::{items_of, read_body};
use crate::error::MirrorError;
use crate::kept::BatchPlace;
use crate::record::next_item;
use disk_core::Disk;
use entry_list::{Item, Items};
use journal_core::Journal;
use std::alloc::Global;
use tree_core::TreeHash;

// Whether an item has the bytes of this entry and this key.
fn is_same(entry: &[u8], key: &[u8], item: &Item<'_>) -> bool
    ensures { result ≡ is_same_item (entry.now, key.now) (item_pair item.now) }
{
    entry == item.entry && key == item.spki
}

// Compares the items that begin these bytes with those that are given, from a number on, up to the
// end of either: the number after the last that was compared, or that of the first that differs.
fn compare<H: TreeHash>(list: &[u8], items: &Items<'_, H>, from: usize) -> Result<usize, usize>
    requires { from ≤ length items.now.entries }
    ensures same { IfOk result (λ n. difference_from from (leading_items list.now)
        (drop from (pairs_of items.now)) ≡ None) }
    ensures count { IfOk result (λ n. n
        ≡ min (from + length (leading_items list.now)) (length items.now.entries)) }
    ensures differs { IfErr result (λ number. difference_from from (leading_items list.now)
        (drop from (pairs_of items.now)) ≡ Some number) }
{
    let total = items.len();
    let mut number = from;
    let mut rest = list;
    'items: while let Some((entry, key, later)) = next_item(rest) {
        if number == total {
            return Ok(number);
        }
        if !is_same(entry, key, &items.item(number)) {
            return Err(number);
        }
        number += 1;
        rest = later;
    }
    Ok(number)
}

/// The number of the first item of the mirror that differs from the one that is given, if there is
/// such an item before the end of both. The Batches at these places are read one by one, and no
/// further than the items that are given go; the disk is only read.
pub(crate) fn find_difference<H: TreeHash, D: Disk>(
    alloc: Global,
    journal: &mut Journal<D>,
    places: &[BatchPlace],
    items: &Items<'_, H>,
) -> Result<Option<u64>, MirrorError>
    requires there { (i : ℕ) → i < length places.now
        → (slice_index_or places.now i no_place).place + 5 ≤ end_of journal.old }
    requires durable { (b : Text) → D.contents (disk_of journal.old) ≡ Some b
        → AreDurable (end_of journal.old) b }
    ensures found { IfOk result (λ found. IfSome (durable_records journal.old) (λ list.
        places.now ≡ places_of_batches list
        → found ≡ first_difference (all_mirrored list) (pairs_of items.now))) }
    ensures why { IfErr result IsNoMirrorAnswer }
    ensures records { durable_records journal.new ≡ durable_records journal.old }
    ensures end { end_of journal.new ≡ end_of journal.old }
    ensures broken { is_broken journal.new ≡ is_broken journal.old }
    ensures only_reads { OnlyReads D.Disk (disk_of journal.old) (disk_of journal.new) }
    ensures cause { MirrorCounts (D.faults (disk_of journal.old)) (D.faults (disk_of journal.new))
        result }
{
    let mut count = 0;
    'batches: for batch in places {
        if count == items.len() {
            return Ok(None);
        }
        let body = read_body(alloc, journal, batch.place)?;
        match compare::<H>(items_of(&body), items, count) {
            Ok(next) => count = next,
            Err(number) => return Ok(Some(number as u64)),
        }
    }
    Ok(None)
}
