//! What is tested and made ready before a record is appended to the journal of a mirror.

ghost use Rattle.std.specs.Prelude.{◌≡◌, ℕ, ◌<◌, Bool, None, length, Err, IfOk, IfErr};
ghost use Rattle.std.specs.Prelude.{OnOk, drop, false, true};
ghost use Rattle.std.specs.List.{list_all};
ghost use Rattle.issuance_log.specs.Records.{CanBeBatch, tiles_record};
ghost use Rattle.tile_store.specs.Store.{tiles_disk, tiles_stored};
ghost use Rattle.mirror_core.specs.Folds.{is_mirrorable};
ghost use Rattle.mirror_core.specs.Kept.{HasBatchCapacity, kept_count, kept_leaves, kept_places};
ghost use Rattle.mirror_core.specs.Kept.{kept_tiles};
ghost use Rattle.mirror_core.specs.Records.{mirror_batch_record};
ghost use Rattle.mirror_core.specs.Refusals.{MirrorCountsAll, begins_large};
ghost use Rattle.mirror_core.specs.Refusals.{MirrorCounts, MirrorTilesKeepTo, TakeKeepsTo};
ghost use Rattle.mirror_core.specs.Refusals.{full_mirror_size, mirror_tile_refusal, next_batch};
ghost use Rattle.mirror_core.specs.Refusals.{pairs_of, take_refusal};
ghost use Rattle.mirror_core.specs.Words.{of_mirror_journal};

use crate::batch::{batch_record, count_batch, is_large};
use crate::error::MirrorError;
use crate::kept::KeptItems;
use crate::numbers::Numbers;
use crate::record::tiles_record;
use disk_core::Disk;
use entry_list::Items;
use mtc_io::Bytes;
use std::alloc::Global;
use tree_core::TreeHash;

/// Tests items that begin with those of a mirror, and reserves memory for the next Batch: the body
/// of its record, and how many items it has.
#[tactic(auto, unfolding(crate::specs::Refusals::take_refusal))]
pub(crate) fn prepare_batch<H: TreeHash, T: Disk>(
    alloc: Global,
    size: u64,
    kept: &mut KeptItems<H, T>,
    items: &Items<'_, H>,
) -> Result<(Bytes, u64), MirrorError>
    ensures body { IfOk result
        (λ x. x.0 ≡ mirror_batch_record (next_batch size (pairs_of items.now))) }
    ensures count { IfOk result (λ x. x.1 ≡ length (next_batch size (pairs_of items.now))) }
    ensures capacity { IfOk result (λ x. HasBatchCapacity x.1 kept.new) }
    ensures new { OnOk result (size < length (pairs_of items.now)) }
    ensures batch { OnOk result (CanBeBatch (next_batch size (pairs_of items.now))) }
    ensures each { OnOk result (list_all (is_mirrorable H.hash)
        (next_batch size (pairs_of items.now)) ≡ true) }
    ensures small { OnOk result (begins_large (drop size (pairs_of items.now)) ≡ false) }
    ensures refused { IfErr result (λ why. (broken : Bool) (end : ℕ)
        → TakeKeepsTo (take_refusal None size broken end (pairs_of items.now)) (Err why)) }
    ensures before { IfErr result (λ why. of_mirror_journal why ≡ None) }
    ensures counts { IfErr result (λ why. (n : ℕ) → MirrorCountsAll {X = ℕ} n n (Err why)) }
    ensures places { kept_places kept.new ≡ kept_places kept.old }
    ensures kept { kept_count kept.new ≡ kept_count kept.old }
    ensures leaves { kept_leaves kept.new ≡ kept_leaves kept.old }
    ensures disk { tiles_disk (kept_tiles kept.new) ≡ tiles_disk (kept_tiles kept.old) }
    ensures stored { tiles_stored (kept_tiles kept.new) ≡ tiles_stored (kept_tiles kept.old) }
{
    if items.len() as u64 <= size {
        return Err(MirrorError::NothingNew);
    }
    let from = size as usize;
    if is_large(&items.item(from)) {
        return Err(MirrorError::TooLarge(size));
    }
    let count = count_batch::<H>(items, from);
    let body = batch_record::<H>(alloc, items, from, count)?;
    kept.reserve(count)?;
    Ok((body, count as u64))
}

/// Tests the tiles that the entries fill: the body of their record.
#[tactic(auto, unfolding(crate::specs::Refusals::mirror_tile_refusal))]
pub(crate) fn prepare_tiles(alloc: Global, numbers: &Numbers) -> Result<Bytes, MirrorError>
    ensures body { IfOk result (λ body. body ≡ tiles_record (full_mirror_size numbers.now)) }
    ensures above { OnOk result (numbers.now.tiled < full_mirror_size numbers.now) }
    ensures refused { IfErr result (λ why. (broken : Bool) (end : ℕ)
        → MirrorTilesKeepTo (mirror_tile_refusal numbers.now broken end) (Err why)) }
    ensures before { IfErr result (λ why. of_mirror_journal why ≡ None) }
    ensures counts { IfErr result (λ why. (n : ℕ) → MirrorCounts {X = ℕ} n n (Err why)) }
{
    let size = numbers.full_size();
    if size <= numbers.tiled() {
        return Err(MirrorError::NothingNew);
    }
    let body = tiles_record(alloc, size)?;
    Ok(body)
}
