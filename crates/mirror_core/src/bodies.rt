//! Items of a mirror, read back from the bodies of their Batches.

ghost use Rattle.std.specs.Prelude.{◌≡◌, ◌+◌, ◌≤◌, [], length, drop, slice_index_or, IfSome, IfOk};
ghost use Rattle.std.specs.Prelude.{◌<◌, ◌↔◌, Some, IfErr, IsSome, OnErr, OnOk};
ghost use Rattle.byte_formats.specs.Offsets.{IsBytes};
ghost use Rattle.byte_formats.specs.Types.{Text};
ghost use Rattle.disk_core.specs.Times.{OnlyReads};
ghost use Rattle.issuance_log.specs.Batches.{leading_items};
ghost use Rattle.issuance_log.specs.Records.{IsShort};
ghost use Rattle.journal_core.specs.Ends.{AreDurable, durable_records};
ghost use Rattle.journal_core.specs.Words.{disk_of, end_of, is_broken};
ghost use Rattle.mirror_core.specs.Places.{IsBodyAt, IsItemIn};
ghost use Rattle.mirror_core.specs.Refusals.{IsNoMirrorAnswer, MirrorCounts};

use crate::error::MirrorError;
use crate::record::next_item;
use disk_core::Disk;
use journal_core::{Journal, MAX_BODY};
use mtc_io::{Bytes, Memory};
use std::alloc::Global;

// From the commit byte of a record up to its body: that byte, and four of length.
const BEFORE_BODY: u64 = 5;

// From the beginning of a Batch up to its items: the tag, and how many there are.
pub(crate) const BEFORE_ITEMS: usize = 3;

fn zeros(alloc: Global, size: usize) -> Result<Vec<u8>, Memory>
    ensures { IfOk result (λ bytes. length bytes.items ≡ size) }
{
    Ok(vec![in alloc; 0; size]?)
}

/// The body of the record whose commit byte stands at an offset. Only a disk whose bytes the model
/// doesn't know can give a length that isn't there; the answer is then out of memory. The disk is
/// only read.
pub(crate) fn read_body<D: Disk>(
    alloc: Global,
    journal: &mut Journal<D>,
    place: u64,
) -> Result<Vec<u8>, MirrorError>
    requires there { place + 5 ≤ end_of journal.old }
    requires durable { (b : Text) → D.contents (disk_of journal.old) ≡ Some b
        → AreDurable (end_of journal.old) b }
    ensures body { IfOk result (λ body. IfSome (durable_records journal.old)
        (IsBodyAt place body.items)) }
    ensures why { IfErr result IsNoMirrorAnswer }
    ensures records { durable_records journal.new ≡ durable_records journal.old }
    ensures end { end_of journal.new ≡ end_of journal.old }
    ensures broken { is_broken journal.new ≡ is_broken journal.old }
    ensures only_reads { OnlyReads D.Disk (disk_of journal.old) (disk_of journal.new) }
    ensures cause { MirrorCounts (D.faults (disk_of journal.old)) (D.faults (disk_of journal.new))
        result }
{
    let most = journal.end() - place - BEFORE_BODY;
    let size = journal.read_size(place + 1)? as usize;
    if size > MAX_BODY || size as u64 > most {
        return Err(MirrorError::Memory);
    }
    let mut body = zeros(alloc, size)?;
    journal.read(place + BEFORE_BODY, &mut body)?;
    Ok(body)
}

/// The bytes of a Batch in which its items follow each other.
pub(crate) fn items_of(body: &[u8]) -> &[u8]
    ensures items { result.now ≡ drop 3 body.now }
    ensures bytes { IsBytes body.now }
{
    if body.len() < BEFORE_ITEMS {
        return &[];
    }
    let (_, items) = body.split_at(BEFORE_ITEMS);
    items
}

// The item of this number among those that begin these bytes, if they are so many.
fn item_in(items: &[u8], number: u64) -> Option<(&[u8], &[u8])>
    ensures there { IsSome result ↔ (number < length (leading_items items.now)) }
    ensures item { IfSome result (λ x. (x.0.now, x.1.now)
        ≡ slice_index_or (leading_items items.now) number ([], [])) }
    ensures short { IfSome result (λ x. IsShort x.0.now × IsShort x.1.now) }
{
    let mut left = number;
    let mut rest = items;
    'items: while let Some((entry, key, later)) = next_item(rest) {
        if left == 0 {
            return Some((entry, key));
        }
        left -= 1;
        rest = later;
    }
    None
}

// Two byte strings into two empty ones, which stay empty where memory is refused.
fn copy_both(first: &[u8], second: &[u8], entry: &mut Bytes, spki: &mut Bytes) -> Result<(), Memory>
    requires entry { entry.old ≡ [] }
    requires spki { spki.old ≡ [] }
    ensures ok { OnOk result ((entry.new ≡ first.now) × (spki.new ≡ second.now)) }
    ensures err { OnErr result ((entry.new ≡ []) × (spki.new ≡ [])) }
{
    entry.append(first)?;
    if spki.append(second).is_err() {
        entry.truncate(0);
        return Err(Memory);
    }
    Ok(())
}

/// The item of this number in the Batch whose commit byte stands at an offset, into two empty byte
/// strings. They stay empty after a refusal: `Failed`, or out of memory. The latter is answered too
/// if a disk whose bytes the model doesn't know gives no such item there.
pub(crate) fn read_item<D: Disk>(
    alloc: Global,
    journal: &mut Journal<D>,
    place: u64,
    number: u64,
    entry: &mut Bytes,
    spki: &mut Bytes,
) -> Result<(), MirrorError>
    requires there { place + 5 ≤ end_of journal.old }
    requires durable { (b : Text) → D.contents (disk_of journal.old) ≡ Some b
        → AreDurable (end_of journal.old) b }
    requires entry { entry.old ≡ [] }
    requires spki { spki.old ≡ [] }
    ensures item { OnOk result (IfSome (durable_records journal.old)
        (IsItemIn place number (entry.new, spki.new))) }
    ensures short { OnOk result (IsShort entry.new × IsShort spki.new) }
    ensures err { OnErr result ((entry.new ≡ []) × (spki.new ≡ [])) }
    ensures why { IfErr result IsNoMirrorAnswer }
    ensures records { durable_records journal.new ≡ durable_records journal.old }
    ensures end { end_of journal.new ≡ end_of journal.old }
    ensures broken { is_broken journal.new ≡ is_broken journal.old }
    ensures only_reads { OnlyReads D.Disk (disk_of journal.old) (disk_of journal.new) }
    ensures cause { MirrorCounts (D.faults (disk_of journal.old)) (D.faults (disk_of journal.new))
        result }
{
    let body = read_body(alloc, journal, place)?;
    match item_in(items_of(&body), number) {
        Some((first, second)) => {
            copy_both(first, second, entry, spki)?;
            Ok(())
        }
        None => Err(MirrorError::Memory),
    }
}
