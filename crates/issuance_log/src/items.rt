//! The items of a log as they are retained: the offset of each, and the nodes of the tree.

ghost use Rattle.std.specs.Prelude.{◌≡◌, ℕ, ◌<◌, ◌+◌, ◌^◌, [], ◌∷◌, ◌++◌, length, slice_index_or};
ghost use Rattle.std.specs.Prelude.{vec_len, option_map, IfSome, OnOk, OnErr};
ghost use Rattle.frame_pool.specs.Frames.{HoldsKey};
ghost use Rattle.frame_pool.specs.declared.key.TileKey.{TileKey as Key};
ghost use Rattle.tile_store.specs.Store.{tiles_count, tiles_disk, tiles_stored};
ghost use Rattle.tree_core.specs.Tree.{leaf_hash};

use crate::record::next_item;
use disk_core::Disk;
use frame_pool::Pool;
use mtc_io::Memory;
use std::alloc::Global;
use tile_store::Tiles;
use tree_core::{TreeHash, leaf};

/// The null entry: the type 0, and no body.
pub(crate) const NULL_ENTRY: [u8; 2] = [0, 0];

/// The offset of each item in the journal, and the nodes of the tree over the entries.
#[derive(Drop)]
pub(crate) struct Items<H: TreeHash, T: Disk> {
    pub(crate) offsets: Vec<u64>,
    pub(crate) nodes: Tiles<H, T>,
    ghost even: { tiles_count nodes ≡ vec_len offsets },
}

impl<H: TreeHash, T: Disk> Items<H, T> {
    ghost use Rattle.issuance_log.specs.Batches.{leading_items};
    ghost use Rattle.issuance_log.specs.Items.{HasCapacityOf, HaveTaken, items_leaves};
    ghost use Rattle.issuance_log.specs.Items.{items_offsets, items_tiles};

    /// No items, over a disk and a pool whose frames hold no tile. It takes no memory.
    pub(crate) fn new(alloc: Global, disk: T, pool: Pool) -> Items<H, T>
        requires { (slot : ℕ) (key : Key) → HoldsKey pool slot key → ⊥ }
        ensures offsets { items_offsets result ≡ [] }
        ensures disk { tiles_disk (items_tiles result) ≡ disk }
        ensures stored { tiles_stored (items_tiles result) ≡ 0 }
        ensures leaves { IfSome (items_leaves result) (λ leaves. leaves ≡ []) }
    {
        Items {
            offsets: Vec::new(alloc),
            nodes: Tiles::new(alloc, disk, pool),
        }
    }

    /// Reserves capacity for so many items more. The items stay as they were.
    pub(crate) fn reserve(&mut self, count: usize) -> Result<(), Memory>
        ensures capacity { OnOk result (HasCapacityOf count self.new) }
        ensures full { OnErr result (HasCapacityOf count self.old → ⊥) }
        ensures offsets { items_offsets self.new ≡ items_offsets self.old }
        ensures leaves { items_leaves self.new ≡ items_leaves self.old }
        ensures disk { tiles_disk (items_tiles self.new) ≡ tiles_disk (items_tiles self.old) }
        ensures stored { tiles_stored (items_tiles self.new) ≡ tiles_stored (items_tiles self.old) }
    {
        self.offsets.reserve(count)?;
        self.nodes.reserve(count)
    }

    /// Appends the offset of an item and the hash of its entry to the others, within the capacity.
    pub(crate) fn push(&mut self, place: u64, leaf: &[u8; 32])
        requires capacity { HasCapacityOf 1 self.old }
        requires few { length (items_offsets self.old) + 1 < 2 ^ 32 }
        ensures offsets { items_offsets self.new ≡ items_offsets self.old ++ place ∷ [] }
        ensures leaves { items_leaves self.new
            ≡ option_map (λ list. list ++ leaf.now ∷ []) (items_leaves self.old) }
        ensures capacity { (count : ℕ) → HasCapacityOf (count + 1) self.old
            → HasCapacityOf count self.new }
        ensures disk { tiles_disk (items_tiles self.new) ≡ tiles_disk (items_tiles self.old) }
        ensures stored { tiles_stored (items_tiles self.new) ≡ tiles_stored (items_tiles self.old) }
    {
        match self.offsets.push(place) {
            Ok(()) => {}
            Err(_full) => unreachable!(),
        }
        match self.nodes.push(leaf) {
            Ok(()) => {}
            Err(_full) => unreachable!(),
        }
    }

    /// Appends the offset of an item and the hash of its entry to the others. If memory is refused
    /// they stay.
    pub(crate) fn add(&mut self, place: u64, entry: &[u8]) -> Result<(), Memory>
        requires { length (items_offsets self.old) + 1 < 2 ^ 32 }
        ensures offsets { OnOk result
            (items_offsets self.new ≡ items_offsets self.old ++ place ∷ []) }
        ensures leaves { OnOk result (items_leaves self.new ≡ option_map
            (λ list. list ++ leaf_hash H.hash entry.now ∷ []) (items_leaves self.old)) }
        ensures offsets_err { OnErr result (items_offsets self.new ≡ items_offsets self.old) }
        ensures leaves_err { OnErr result (items_leaves self.new ≡ items_leaves self.old) }
        ensures full { OnErr result (HasCapacityOf 1 self.old → ⊥) }
        ensures disk { tiles_disk (items_tiles self.new) ≡ tiles_disk (items_tiles self.old) }
        ensures stored { tiles_stored (items_tiles self.new) ≡ tiles_stored (items_tiles self.old) }
    {
        self.reserve(1)?;
        self.push(place, &leaf::<H>(entry));
        Ok(())
    }

    /// Appends the offsets of the items that begin these bytes, which follow each other from an
    /// offset on, and the hashes of their entries to the others, within the capacity.
    pub(crate) fn push_all(&mut self, place: u64, list: &[u8])
        requires capacity { HasCapacityOf (length (leading_items list.now)) self.old }
        requires few { length (items_offsets self.old) + length (leading_items list.now)
            < 2 ^ 32 }
        requires fits { place + length list.now < 2 ^ 64 }
        ensures taken { HaveTaken H.hash (leading_items list.now) place self.old self.new }
        ensures disk { tiles_disk (items_tiles self.new) ≡ tiles_disk (items_tiles self.old) }
        ensures stored { tiles_stored (items_tiles self.new) ≡ tiles_stored (items_tiles self.old) }
    {
        let mut place = place;
        let mut rest = list;
        'items: while let Some((entry, key, later)) = next_item(rest) {
            self.push(place, &leaf::<H>(entry));
            place += (rest.len() - later.len()) as u64;
            rest = later;
        }
    }

    /// The offset of the item after an index, or the greatest number where there is none.
    pub(crate) fn next_place(&self, index: u64) -> u64
        requires { index < length (items_offsets self.now) }
    {
        match self.offsets.get(index as usize + 1) {
            Some(place) => *place,
            None => u64::MAX,
        }
    }

    /// The offset of an item.
    pub(crate) fn place(&self, index: u64) -> u64
        requires { index < length (items_offsets self.now) }
        ensures { result ≡ slice_index_or (items_offsets self.now) index 0 }
    {
        self.offsets[index as usize]
    }
}
