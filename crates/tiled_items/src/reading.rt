//! An item that is read back from the journal, from the place of its block on.

ghost use Rattle.std.specs.Prelude.{◌≡◌, ℕ, ◌+◌, ◌-◌, ◌<◌, ◌≤◌, [], length, slice_index_or, Some};
ghost use Rattle.std.specs.Prelude.{IfSome, IfOk, IfErr, OnErr, OnOk};
ghost use Rattle.byte_formats.specs.Types.{Text};
ghost use Rattle.disk_core.specs.Times.{OnlyReads};
ghost use Rattle.issuance_log.specs.Batches.{leading_items};
ghost use Rattle.journal_core.specs.Ends.{AreDurable, durable_records};
ghost use Rattle.journal_core.specs.Words.{disk_of, end_of};
ghost use Rattle.tiled_items.specs.Blocks.{all_items};
ghost use Rattle.tiled_items.specs.Walk.{IsRecordBodyAt, IsWalk, StepsTo, record_items};

use crate::error::ItemError;
use crate::held::ItemPlace;
use crate::record::next_item;
use crate::rules::ItemRules;
use disk_core::Disk;
use journal_core::{Journal, MAX_BODY};
use mtc_io::{Bytes, Memory};
use std::alloc::Global;

// From the commit byte of a record up to its body: that byte, and four of length.
const BEFORE_BODY: u64 = 5;

fn zeros(alloc: Global, size: usize) -> Result<Vec<u8>, Memory>
    ensures { IfOk result (λ bytes. length bytes.items ≡ size) }
{
    Ok(vec![in alloc; 0; size]?)
}

// The body of the record whose commit byte stands at an offset. Only a disk whose bytes the model
// doesn't know can give a length that isn't there, which is `Misread`.
fn read_body<D: Disk>(
    alloc: Global,
    journal: &mut Journal<D>,
    place: u64,
) -> Result<Vec<u8>, ItemError>
    requires there { place + 5 ≤ end_of journal.old }
    requires durable { (b : Text) → D.contents (disk_of journal.old) ≡ Some b
        → AreDurable (end_of journal.old) b }
    ensures body { IfOk result (λ body. IfSome (durable_records journal.old)
        (IsRecordBodyAt place body.items)) }
    ensures inside { IfOk result (λ body. place + 5 + length body.items ≤ end_of journal.old) }
    ensures records { durable_records journal.new ≡ durable_records journal.old }
    ensures end { end_of journal.new ≡ end_of journal.old }
    ensures only_reads { OnlyReads D.Disk (disk_of journal.old) (disk_of journal.new) }
{
    let most = journal.end() - place - BEFORE_BODY;
    let size = journal.read_size(place + 1)? as usize;
    if size > MAX_BODY || size as u64 > most {
        return Err(ItemError::Misread);
    }
    let mut body = zeros(alloc, size)?;
    journal.read(place + BEFORE_BODY, &mut body)?;
    Ok(body)
}

// The items of the record whose commit byte stands at an offset.
fn record_items<R: ItemRules>(place: u64, body: &[u8]) -> &[u8]
    ensures { leading_items result.now ≡ record_items R.first R.added place body.now }
{
    if place == 16 {
        R::first_items(body)
    } else {
        R::items_in(body)
    }
}

// The item of this number among those that begin these bytes, or how many they are.
fn item_in(items: &[u8], number: u64) -> Result<(&[u8], &[u8]), u64>
    ensures there { OnOk result (number < length (leading_items items.now)) }
    ensures item { IfOk result (λ x. (x.0.now, x.1.now)
        ≡ slice_index_or (leading_items items.now) number ([], [])) }
    ensures count { IfErr result (λ n. n ≡ length (leading_items items.now)) }
    ensures past { IfErr result (λ n. n ≤ number) }
{
    let mut left = number;
    let mut rest = items;
    'items: while let Some((entry, key, later)) = next_item(rest) {
        if left == 0 {
            return Ok((entry, key));
        }
        left -= 1;
        rest = later;
    }
    Err(number - left)
}

// Two byte strings into two empty ones, which stay empty where memory is refused.
fn copy_both(first: &[u8], second: &[u8], entry: &mut Bytes, spki: &mut Bytes) -> Result<(), Memory>
    requires entry { entry.old ≡ [] }
    requires spki { spki.old ≡ [] }
    ensures ok { OnOk result ((entry.new ≡ first.now) × (spki.new ≡ second.now)) }
    ensures err { OnErr result ((entry.new ≡ []) × (spki.new ≡ [])) }
{
    entry.append(first)?;
    if spki.append(second).is_err() {
        entry.truncate(0);
        return Err(Memory);
    }
    Ok(())
}

// One step to an item: it is in the record at an offset, and was copied, or this is the offset of
// the next record, and how far behind its first item the item is.
fn read_step<R: ItemRules, D: Disk>(
    alloc: Global,
    journal: &mut Journal<D>,
    place: u64,
    left: u64,
    entry: &mut Bytes,
    spki: &mut Bytes,
) -> Result<Option<(u64, u64)>, ItemError>
    requires durable { (b : Text) → D.contents (disk_of journal.old) ≡ Some b
        → AreDurable (end_of journal.old) b }
    requires entry { entry.old ≡ [] }
    requires spki { spki.old ≡ [] }
    ensures step { IfOk result (λ next. IfSome (durable_records journal.old) (λ list. (index : ℕ)
        → IsWalk R.first R.added list index place left
        → index < length (all_items R.first R.added list)
        → StepsTo R.first R.added list index (entry.new, spki.new) next)) }
    ensures further { IfOk result (λ next. IfSome next
        (λ x. (place < x.0) × (x.0 ≤ end_of journal.old))) }
    ensures empty { OnErr result ((entry.new ≡ []) × (spki.new ≡ [])) }
    ensures still { IfOk result (λ next. IfSome next
        (λ _. (entry.new ≡ []) × (spki.new ≡ []))) }
    ensures records { durable_records journal.new ≡ durable_records journal.old }
    ensures end { end_of journal.new ≡ end_of journal.old }
    ensures only_reads { OnlyReads D.Disk (disk_of journal.old) (disk_of journal.new) }
{
    let end = journal.end();
    if end < BEFORE_BODY || place > end - BEFORE_BODY {
        return Err(ItemError::Misread);
    }
    let body = read_body(alloc, journal, place)?;
    match item_in(record_items::<R>(place, &body), left) {
        Ok((first, second)) => {
            copy_both(first, second, entry, spki)?;
            Ok(None)
        }
        Err(count) => Ok(Some((place + BEFORE_BODY + body.len() as u64, left - count))),
    }
}

/// The item at an index into two empty byte strings, from the place of its block on. They stay
/// empty after a refusal. `Misread` comes only over a disk whose bytes the model doesn't know.
pub(crate) fn read_item<R: ItemRules, D: Disk>(
    alloc: Global,
    journal: &mut Journal<D>,
    start: ItemPlace,
    index: u64,
    entry: &mut Bytes,
    spki: &mut Bytes,
) -> Result<(), ItemError>
    requires before { start.first ≤ index }
    requires durable { (b : Text) → D.contents (disk_of journal.old) ≡ Some b
        → AreDurable (end_of journal.old) b }
    requires entry { entry.old ≡ [] }
    requires spki { spki.old ≡ [] }
    ensures item { OnOk result (IfSome (durable_records journal.old) (λ list.
        IsWalk R.first R.added list index start.place (index - start.first)
        → index < length (all_items R.first R.added list)
        → (entry.new, spki.new)
        ≡ slice_index_or (all_items R.first R.added list) index ([], []))) }
    ensures empty { OnErr result ((entry.new ≡ []) × (spki.new ≡ [])) }
    ensures records { durable_records journal.new ≡ durable_records journal.old }
    ensures end { end_of journal.new ≡ end_of journal.old }
    ensures only_reads { OnlyReads D.Disk (disk_of journal.old) (disk_of journal.new) }
{
    let mut place = start.place;
    let mut left = index - start.first;
    'records: loop {
        match read_step::<R, D>(alloc, journal, place, left, entry, spki)? {
            None => return Ok(()),
            Some((later, rest)) => {
                place = later;
                left = rest;
            }
        }
    }
}
