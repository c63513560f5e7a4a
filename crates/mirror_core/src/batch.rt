//! The items of the next Batch, and the body of its record.

ghost use Rattle.std.specs.Prelude.{◌≡◌, ◌+◌, ◌<◌, ◌≤◌, ◌^◌, drop, take, length, IfOk};
ghost use Rattle.entry_list.specs.Items.{item_pair};
ghost use Rattle.issuance_log.specs.Batches.{is_large, most_listed};
ghost use Rattle.issuance_log.specs.Records.{CanBeBatch};
ghost use Rattle.mirror_core.specs.Records.{mirror_batch_record};
ghost use Rattle.mirror_core.specs.Refusals.{batch_count, pairs_of};

use crate::record::BATCH;
use entry_list::{Item, Items};
use mtc_io::{Bytes, Memory};
use std::alloc::Global;
use tls_wire::{put_u8, put_u16, put_vec16};
use tree_core::TreeHash;

/// An entry and its key have at most so many bytes together.
pub(crate) const MAX_ITEM: usize = 65_535;

// The items of a Batch have at most so many bytes with their lengths: a body has 131,072, and three
// of them are the tag and the count.
const MAX_LISTED: usize = 131_069;

// The lengths of an entry and of its key.
const LENGTHS: usize = 4;

/// Whether an entry and its key have more than 65,535 bytes together.
pub(crate) fn is_large(item: &Item<'_>) -> bool
    ensures { result ≡ is_large (item_pair item.now) }
{
    item.entry.len() + item.spki.len() > MAX_ITEM
}

/// How many items from a number on the next Batch has: as many as fit a record, up to the first
/// that is large.
pub(crate) fn count_batch<H: TreeHash>(items: &Items<'_, H>, from: usize) -> usize
    requires { from ≤ length items.now.entries }
    ensures { result ≡ batch_count most_listed (drop from (pairs_of items.now)) }
{
    let total = items.len();
    let mut left = MAX_LISTED;
    let mut count = 0;
    'items: while from + count < total {
        let item = items.item(from + count);
        if is_large(&item) {
            return count;
        }
        let size = LENGTHS + item.entry.len() + item.spki.len();
        if size > left {
            return count;
        }
        left -= size;
        count += 1;
    }
    count
}

/// The body of a Batch of so many items from a number on.
#[tactic(auto, unfolding(crate::specs::Records::mirror_batch_record))]
pub(crate) fn batch_record<H: TreeHash>(
    alloc: Global,
    items: &Items<'_, H>,
    from: usize,
    count: usize,
) -> Result<Bytes, Memory>
    requires within { from + count ≤ length (pairs_of items.now) }
    requires fits { from + count < 2 ^ 64 }
    requires batch { CanBeBatch (take count (drop from (pairs_of items.now))) }
    ensures { IfOk result (λ body. body
        ≡ mirror_batch_record (take count (drop from (pairs_of items.now)))) }
{
    let mut body = Bytes::new(alloc);
    put_u8(&mut body, BATCH)?;
    put_u16(&mut body, count as u16)?;
    let mut done = 0;
    'items: while done < count {
        let item = items.item(from + done);
        put_vec16(&mut body, item.entry)?;
        put_vec16(&mut body, item.spki)?;
        done += 1;
    }
    Ok(body)
}
