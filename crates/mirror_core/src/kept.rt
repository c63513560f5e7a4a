//! The items of a mirror as they are retained: where each Batch stands in the journal, and the
//! nodes of the tree.

ghost use Rattle.std.specs.Prelude.{◌≡◌, ◌<◌, ◌≤◌, ◌+◌, ◌^◌, [], ◌∷◌, ◌++◌, length, option_map};
ghost use Rattle.std.specs.Prelude.{slice_index_or, ℕ};
ghost use Rattle.std.specs.Prelude.{IfSome, OnErr, OnOk};
ghost use Rattle.frame_pool.specs.Frames.{HoldsKey};
ghost use Rattle.frame_pool.specs.declared.key.TileKey.{TileKey as Key};
ghost use Rattle.issuance_log.specs.Batches.{leading_items};
ghost use Rattle.tile_store.specs.Store.{tiles_disk, tiles_spare, tiles_stored};
ghost use Rattle.mirror_core.specs.Places.{HoldsIndex, no_place};

use crate::record::next_item;
use disk_core::Disk;
use frame_pool::Pool;
use mtc_io::Memory;
use std::alloc::Global;
use tile_store::Tiles;
use tree_core::{TreeHash, leaf};

/// Where a Batch stands in the journal, by the offset of its commit byte, and the number of its
/// first item.
#[derive(Clone, Copy, Debug)]
pub(crate) struct BatchPlace {
    pub(crate) place: u64,
    pub(crate) first: u64,
}

/// The place of each Batch in the journal, and the nodes of the tree over the entries.
#[derive(Drop)]
pub(crate) struct KeptItems<H: TreeHash, T: Disk> {
    pub(crate) places: Vec<BatchPlace>,
    pub(crate) nodes: Tiles<H, T>,
}

// The number of the last place whose first item isn't after an index.
fn find(places: &[BatchPlace], index: u64) -> usize
    requires some { 1 ≤ length places.now }
    ensures there { result < length places.now }
    ensures from { (slice_index_or places.now 0 no_place).first ≤ index
        → (slice_index_or places.now result no_place).first ≤ index }
    ensures next { result + 1 < length places.now
        → index < (slice_index_or places.now (result + 1) no_place).first }
{
    let mut low = 0;
    let mut high = places.len();
    'halves: while high - low > 1 {
        let middle = low + (high - low) / 2;
        if places[middle].first <= index {
            low = middle;
        } else {
            high = middle;
        }
    }
    low
}

impl<H: TreeHash, T: Disk> KeptItems<H, T> {
    ghost use Rattle.mirror_core.specs.Kept.{HasBatchCapacity, item_leaves, kept_count};
    ghost use Rattle.mirror_core.specs.Kept.{kept_leaves, kept_places, kept_tiles};

    /// No items, over a disk and a pool whose frames hold no tile. It takes no memory.
    pub(crate) fn new(alloc: Global, disk: T, pool: Pool) -> KeptItems<H, T>
        requires { (slot : ℕ) (key : Key) → HoldsKey pool slot key → ⊥ }
        ensures places { kept_places result ≡ [] }
        ensures count { kept_count result ≡ 0 }
        ensures disk { tiles_disk (kept_tiles result) ≡ disk }
        ensures stored { tiles_stored (kept_tiles result) ≡ 0 }
        ensures leaves { IfSome (kept_leaves result) (λ leaves. leaves ≡ []) }
    {
        KeptItems {
            places: Vec::new(alloc),
            nodes: Tiles::new(alloc, disk, pool),
        }
    }

    /// Reserves capacity for so many items more in one Batch. All stays as it was.
    pub(crate) fn reserve(&mut self, count: usize) -> Result<(), Memory>
        ensures capacity { OnOk result (HasBatchCapacity count self.new) }
        ensures full { OnErr result (HasBatchCapacity count self.old → ⊥) }
        ensures places { kept_places self.new ≡ kept_places self.old }
        ensures count { kept_count self.new ≡ kept_count self.old }
        ensures leaves { kept_leaves self.new ≡ kept_leaves self.old }
        ensures disk { tiles_disk (kept_tiles self.new) ≡ tiles_disk (kept_tiles self.old) }
        ensures stored { tiles_stored (kept_tiles self.new) ≡ tiles_stored (kept_tiles self.old) }
    {
        self.places.reserve(1)?;
        self.nodes.reserve(count)
    }

    // Appends the hash of an entry to the others, within the capacity.
    fn push_leaf(&mut self, leaf: &[u8; 32])
        requires spare { 1 ≤ tiles_spare (kept_tiles self.old) }
        requires few { kept_count self.old + 1 < 2 ^ 32 }
        ensures places { kept_places self.new ≡ kept_places self.old }
        ensures count { kept_count self.new ≡ kept_count self.old + 1 }
        ensures leaves { kept_leaves self.new
            ≡ option_map (λ list. list ++ leaf.now ∷ []) (kept_leaves self.old) }
        ensures spare { tiles_spare (kept_tiles self.old) ≤ tiles_spare (kept_tiles self.new) + 1 }
        ensures disk { tiles_disk (kept_tiles self.new) ≡ tiles_disk (kept_tiles self.old) }
        ensures stored { tiles_stored (kept_tiles self.new) ≡ tiles_stored (kept_tiles self.old) }
    {
        match self.nodes.push(leaf) {
            Ok(()) => {}
            Err(_full) => unreachable!(),
        }
    }

    // Appends the hashes of the entries of the items that begin these bytes, within the capacity.
    fn push_leaves(&mut self, list: &[u8])
        requires spare { length (leading_items list.now) ≤ tiles_spare (kept_tiles self.old) }
        requires few { kept_count self.old + length (leading_items list.now) < 2 ^ 32 }
        ensures places { kept_places self.new ≡ kept_places self.old }
        ensures count { kept_count self.new
            ≡ kept_count self.old + length (leading_items list.now) }
        ensures leaves { kept_leaves self.new
            ≡ option_map (λ l. l ++ item_leaves H.hash (leading_items list.now))
            (kept_leaves self.old) }
        ensures disk { tiles_disk (kept_tiles self.new) ≡ tiles_disk (kept_tiles self.old) }
        ensures stored { tiles_stored (kept_tiles self.new) ≡ tiles_stored (kept_tiles self.old) }
    {
        let mut rest = list;
        'items: while let Some((entry, _key, later)) = next_item(rest) {
            self.push_leaf(&leaf::<H>(entry));
            rest = later;
        }
    }

    /// Appends the place of a Batch, whose commit byte stands at an offset, and the hashes of the
    /// entries of its items, which begin these bytes, within the capacity.
    pub(crate) fn push_batch(&mut self, place: u64, first: u64, list: &[u8])
        requires capacity { HasBatchCapacity (length (leading_items list.now)) self.old }
        requires few { kept_count self.old + length (leading_items list.now) < 2 ^ 32 }
        ensures places { kept_places self.new
            ≡ kept_places self.old ++ record { place = place; first = first } ∷ [] }
        ensures count { kept_count self.new
            ≡ kept_count self.old + length (leading_items list.now) }
        ensures leaves { kept_leaves self.new
            ≡ option_map (λ l. l ++ item_leaves H.hash (leading_items list.now))
            (kept_leaves self.old) }
        ensures disk { tiles_disk (kept_tiles self.new) ≡ tiles_disk (kept_tiles self.old) }
        ensures stored { tiles_stored (kept_tiles self.new) ≡ tiles_stored (kept_tiles self.old) }
    {
        match self.places.push(BatchPlace { place, first }) {
            Ok(()) => {}
            Err(_full) => unreachable!(),
        }
        self.push_leaves(list);
    }

    /// The place of the Batch that has the item at an index.
    pub(crate) fn place_of(&self, index: u64) -> BatchPlace
        requires some { 1 ≤ length (kept_places self.now) }
        requires first { (slice_index_or (kept_places self.now) 0 no_place).first ≤ index }
        ensures { HoldsIndex (kept_places self.now) index result }
    {
        self.places[find(self.places.as_slice(), index)]
    }
}
