//! What is tested and made ready before a record is appended to the journal of a log.

ghost use Rattle.std.specs.Prelude.{◌≡◌, ℕ, ◌+◌, ◌<◌, ◌≤◌, Bool, None, false, length, Err, IfOk};
ghost use Rattle.std.specs.Prelude.{IfErr};
ghost use Rattle.std.specs.Prelude.{OnOk};
ghost use Rattle.tile_store.specs.Store.{tiles_disk, tiles_stored};
ghost use Rattle.issuance_log.specs.Entries.{LogCounts};
ghost use Rattle.issuance_log.specs.Items.{HasCapacityOf, items_leaves, items_offsets};
ghost use Rattle.issuance_log.specs.Items.{items_tiles};
ghost use Rattle.issuance_log.specs.Marks.{last_mark};
ghost use Rattle.issuance_log.specs.Batches.{fitting, has_large, most_listed};
ghost use Rattle.issuance_log.specs.Records.{CanBeBatch, batch_record};
ghost use Rattle.issuance_log.specs.Records.{entry_record, landmark_record, switch_record};
ghost use Rattle.issuance_log.specs.Records.{tiles_record};
ghost use Rattle.issuance_log.specs.Refusals.{add_refusal, ItemKeepsTo, batch_refusal};
ghost use Rattle.issuance_log.specs.Refusals.{BatchKeepsTo, mark_refusal, MarkKeepsTo};
ghost use Rattle.issuance_log.specs.Refusals.{full_size, switch_refusal, SwitchKeepsTo};
ghost use Rattle.issuance_log.specs.Refusals.{tile_refusal, TilesKeepTo};
ghost use Rattle.issuance_log.specs.Settings.{most_item};
ghost use Rattle.issuance_log.specs.Words.{of_log_journal};

use crate::batch::{LogItem, MAX_ITEM, batch_record, fitting, has_large};
use crate::error::LogError;
use crate::items::Items;
use crate::numbers::Numbers;
use crate::record::{LANDMARK, SWITCH, TILES, entry_record, size_record};
use disk_core::Disk;
use mtc_io::Bytes;
use std::alloc::Global;
use tree_core::TreeHash;

/// Tests an item and reserves memory for it: the body of its record.
#[tactic(auto, unfolding(crate::specs::Refusals::add_refusal))]
pub(crate) fn prepare_item<H: TreeHash, T: Disk>(
    alloc: Global,
    numbers: &Numbers,
    items: &mut Items<H, T>,
    entry: &[u8],
    spki: &[u8],
) -> Result<Bytes, LogError>
    ensures body { IfOk result (λ body. body ≡ entry_record entry.now spki.now) }
    ensures capacity { OnOk result (HasCapacityOf 1 items.new) }
    ensures size { OnOk result (numbers.now.view.size < numbers.now.view.settings.limit) }
    ensures few { OnOk result (length entry.now + length spki.now ≤ most_item) }
    ensures refused { IfErr result (λ why. (broken : Bool) (end : ℕ)
        → ItemKeepsTo (add_refusal numbers.now.view broken end entry.now spki.now) (Err why)) }
    ensures before { IfErr result (λ why. of_log_journal why ≡ None) }
    ensures offsets { items_offsets items.new ≡ items_offsets items.old }
    ensures leaves { items_leaves items.new ≡ items_leaves items.old }
    ensures disk { tiles_disk (items_tiles items.new) ≡ tiles_disk (items_tiles items.old) }
    ensures stored { tiles_stored (items_tiles items.new) ≡ tiles_stored (items_tiles items.old) }
{
    if numbers.is_full() {
        return Err(LogError::Full);
    }
    if entry.len() + spki.len() > MAX_ITEM {
        return Err(LogError::TooLarge);
    }
    let body = entry_record(alloc, entry, spki)?;
    items.reserve(1)?;
    Ok(body)
}

/// Tests items that are to be added together and reserves memory for them: the body of their
/// record.
#[tactic(auto, unfolding(crate::specs::Refusals::batch_refusal))]
pub(crate) fn prepare_items<H: TreeHash, T: Disk>(
    alloc: Global,
    numbers: &Numbers,
    items: &mut Items<H, T>,
    list: &[LogItem],
) -> Result<Bytes, LogError>
    requires { 1 ≤ length list.now }
    ensures body { IfOk result (λ body. body ≡ batch_record list.now) }
    ensures capacity { OnOk result (HasCapacityOf (length list.now) items.new) }
    ensures size { OnOk result
        (numbers.now.view.size + length list.now ≤ numbers.now.view.settings.limit) }
    ensures fits { OnOk result (fitting most_listed list.now ≡ length list.now) }
    ensures large { OnOk result (has_large list.now ≡ false) }
    ensures batch { OnOk result (CanBeBatch list.now) }
    ensures refused { IfErr result (λ why. (broken : Bool) (end : ℕ)
        → BatchKeepsTo (batch_refusal numbers.now.view broken end list.now) (Err why)) }
    ensures before { IfErr result (λ why. of_log_journal why ≡ None) }
    ensures offsets { items_offsets items.new ≡ items_offsets items.old }
    ensures leaves { items_leaves items.new ≡ items_leaves items.old }
    ensures disk { tiles_disk (items_tiles items.new) ≡ tiles_disk (items_tiles items.old) }
    ensures stored { tiles_stored (items_tiles items.new) ≡ tiles_stored (items_tiles items.old) }
{
    if (list.len() as u64) > numbers.left() {
        return Err(LogError::Full);
    }
    let fit = fitting(list);
    if fit < list.len() {
        return Err(LogError::TooMany(fit as u64));
    }
    if has_large(list) {
        return Err(LogError::TooLarge);
    }
    let body = batch_record(alloc, list)?;
    items.reserve(list.len())?;
    Ok(body)
}

/// Tests a landmark at the size and reserves memory for it: the body of its record.
#[tactic(auto, unfolding(crate::specs::Refusals::mark_refusal))]
pub(crate) fn prepare_mark(alloc: Global, numbers: &mut Numbers) -> Result<Bytes, LogError>
    ensures body { IfOk result (λ body. body ≡ landmark_record numbers.old.view.size) }
    ensures capacity { OnOk result (1 ≤ numbers.new.mark_spare) }
    ensures above { OnOk result (last_mark numbers.old.view.marks < numbers.old.view.size) }
    ensures refused { IfErr result (λ why. (broken : Bool) (end : ℕ)
        → MarkKeepsTo (mark_refusal numbers.old.view broken end) (Err why)) }
    ensures before { IfErr result (λ why. of_log_journal why ≡ None) }
    ensures same { numbers.new.view ≡ numbers.old.view }
{
    let size = numbers.size();
    if numbers.last_mark() == size {
        return Err(LogError::NothingNew);
    }
    let body = size_record(alloc, LANDMARK, size)?;
    numbers.prepare_mark()?;
    Ok(body)
}

/// Tests whether the log may be switched at its size: the body of the record.
#[tactic(auto, using(crate::proofs::Answering::already, crate::proofs::Answering::not_already))]
pub(crate) fn prepare_switch(alloc: Global, numbers: &Numbers) -> Result<Bytes, LogError>
    ensures body { IfOk result (λ body. body ≡ switch_record numbers.now.view.size) }
    ensures first { OnOk result (numbers.now.view.switched ≡ None) }
    ensures refused { IfErr result (λ why. (broken : Bool) (end : ℕ)
        → SwitchKeepsTo (switch_refusal numbers.now.view broken end) (Err why)) }
    ensures before { IfErr result (λ why. of_log_journal why ≡ None) }
{
    match numbers.switched() {
        Some(index) => Err(LogError::AlreadySwitched(index)),
        None => {
            let body = size_record(alloc, SWITCH, numbers.size())?;
            Ok(body)
        }
    }
}

/// Tests the tiles that the entries fill: the body of their record.
#[tactic(auto, unfolding(crate::specs::Refusals::tile_refusal))]
pub(crate) fn prepare_tiles(alloc: Global, numbers: &Numbers) -> Result<Bytes, LogError>
    ensures body { IfOk result (λ body. body ≡ tiles_record (full_size numbers.now.view)) }
    ensures above { OnOk result (numbers.now.view.tiled < full_size numbers.now.view) }
    ensures refused { IfErr result (λ why. (broken : Bool) (end : ℕ)
        → TilesKeepTo (tile_refusal numbers.now.view broken end) (Err why)) }
    ensures before { IfErr result (λ why. of_log_journal why ≡ None) }
    ensures counts { IfErr result (λ why. (n : ℕ) → LogCounts {X = ℕ} n n (Err why)) }
{
    let size = numbers.full_size();
    if size <= numbers.tiled() {
        return Err(LogError::NothingNew);
    }
    let body = size_record(alloc, TILES, size)?;
    Ok(body)
}
