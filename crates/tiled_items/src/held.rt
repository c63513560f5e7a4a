//! What is held of the items: where each block of 256 of them begins in the journal, and the nodes
//! of the tree.

ghost use Rattle.std.specs.Prelude.{◌≡◌, ◌<◌, ◌≤◌, ◌+◌, ◌^◌, ℕ, [], ◌∷◌, ◌++◌, length, option_map};
ghost use Rattle.std.specs.Prelude.{replicate, vec_len, vec_capacity, IfSome, OnErr, OnOk};
ghost use Rattle.frame_pool.specs.Frames.{HoldsKey};
ghost use Rattle.frame_pool.specs.declared.key.TileKey.{TileKey as Key};
ghost use Rattle.issuance_log.specs.Batches.{leading_items};
ghost use Rattle.tile_store.specs.Store.{tiles_disk, tiles_spare, tiles_stored};
ghost use Rattle.tiled_items.specs.Blocks.{blocks_begun};

use crate::record::next_item;
use disk_core::Disk;
use frame_pool::Pool;
use mtc_io::Memory;
use std::alloc::Global;
use tile_store::Tiles;
use tree_core::{TreeHash, leaf};

/// As many entries fill a tile, and as many items are a block.
pub(crate) const TILE: u64 = 256;

/// Where a record stands in the journal, by the offset of its commit byte, and how many items are
/// before those in it.
#[derive(Clone, Copy, Debug)]
pub struct ItemPlace {
    pub place: u64,
    pub first: u64,
}

/// The place of the record that has the first item of each block, and the nodes of the tree over
/// the entries.
#[derive(Drop)]
pub struct HeldItems<H: TreeHash, T: Disk> {
    pub(crate) places: Vec<ItemPlace>,
    pub(crate) nodes: Tiles<H, T>,
}

// How many blocks begin with so many items, after others.
fn blocks_begun(first: u64, count: u64) -> usize
    requires { first + count < 2 ^ 32 }
    ensures { result ≡ blocks_begun first count }
{
    let before = (first + TILE - 1) / TILE;
    let after = (first + count + TILE - 1) / TILE;
    (after - before) as usize
}

impl<H: TreeHash, T: Disk> HeldItems<H, T> {
    ghost use Rattle.tiled_items.specs.Held.{HasItemCapacity, HasPushedItems, held_count};
    ghost use Rattle.tiled_items.specs.Held.{held_leaves, held_places, held_tiles, leaves_of_items};

    /// No items, over a disk and a pool whose frames hold no tile. It takes no memory.
    pub(crate) fn new(alloc: Global, disk: T, pool: Pool) -> HeldItems<H, T>
        requires { (slot : ℕ) (key : Key) → HoldsKey pool slot key → ⊥ }
        ensures places { held_places result ≡ [] }
        ensures count { held_count result ≡ 0 }
        ensures disk { tiles_disk (held_tiles result) ≡ disk }
        ensures stored { tiles_stored (held_tiles result) ≡ 0 }
        ensures leaves { IfSome (held_leaves result) (λ leaves. leaves ≡ []) }
    {
        HeldItems {
            places: Vec::new(alloc),
            nodes: Tiles::new(alloc, disk, pool),
        }
    }

    /// Reserves capacity for so many items more, after others. All stays as it was.
    pub(crate) fn reserve(&mut self, first: u64, count: u64) -> Result<(), Memory>
        requires few { first + count < 2 ^ 32 }
        ensures capacity { OnOk result (HasItemCapacity first count self.new) }
        ensures full { OnErr result (HasItemCapacity first count self.old → ⊥) }
        ensures places { held_places self.new ≡ held_places self.old }
        ensures count { held_count self.new ≡ held_count self.old }
        ensures leaves { held_leaves self.new ≡ held_leaves self.old }
        ensures disk { tiles_disk (held_tiles self.new) ≡ tiles_disk (held_tiles self.old) }
        ensures stored { tiles_stored (held_tiles self.new) ≡ tiles_stored (held_tiles self.old) }
    {
        let more = blocks_begun(first, count);
        if more > 0 {
            self.places.reserve(more)?;
        }
        self.nodes.reserve(count as usize)
    }

    // Appends the hash of an entry to the others, within the capacity.
    fn push_leaf(&mut self, leaf: &[u8; 32])
        requires spare { 1 ≤ tiles_spare (held_tiles self.old) }
        requires few { held_count self.old + 1 < 2 ^ 32 }
        ensures places { held_places self.new ≡ held_places self.old }
        ensures count { held_count self.new ≡ held_count self.old + 1 }
        ensures leaves { held_leaves self.new
            ≡ option_map (λ list. list ++ leaf.now ∷ []) (held_leaves self.old) }
        ensures spare { tiles_spare (held_tiles self.old) ≤ tiles_spare (held_tiles self.new) + 1 }
        ensures disk { tiles_disk (held_tiles self.new) ≡ tiles_disk (held_tiles self.old) }
        ensures stored { tiles_stored (held_tiles self.new) ≡ tiles_stored (held_tiles self.old) }
    {
        match self.nodes.push(leaf) {
            Ok(()) => {}
            Err(_full) => unreachable!(),
        }
    }

    // Appends the hashes of the entries of the items that begin these bytes, within the capacity.
    fn push_leaves(&mut self, list: &[u8])
        requires spare { length (leading_items list.now) ≤ tiles_spare (held_tiles self.old) }
        requires few { held_count self.old + length (leading_items list.now) < 2 ^ 32 }
        ensures places { held_places self.new ≡ held_places self.old }
        ensures count { held_count self.new
            ≡ held_count self.old + length (leading_items list.now) }
        ensures leaves { held_leaves self.new
            ≡ option_map (λ l. l ++ leaves_of_items H.hash (leading_items list.now))
            (held_leaves self.old) }
        ensures disk { tiles_disk (held_tiles self.new) ≡ tiles_disk (held_tiles self.old) }
        ensures stored { tiles_stored (held_tiles self.new) ≡ tiles_stored (held_tiles self.old) }
    {
        let mut rest = list;
        'items: while let Some((entry, _key, later)) = next_item(rest) {
            self.push_leaf(&leaf::<H>(entry));
            rest = later;
        }
    }

    // Appends a place to the others, so many times, within the capacity.
    fn push_places(&mut self, place: ItemPlace, more: usize)
        requires { 1 ≤ more → vec_len self.old.places + more ≤ vec_capacity self.old.places }
        ensures places { held_places self.new ≡ held_places self.old ++ replicate more place }
        ensures nodes { self.new.nodes ≡ self.old.nodes }
    {
        let mut done = 0;
        'places: while done < more {
            match self.places.push(place) {
                Ok(()) => {}
                Err(_full) => unreachable!(),
            }
            done += 1;
        }
    }

    /// Appends the items that begin these bytes, which are so many and stand in the record whose
    /// commit byte stands at an offset, within the capacity.
    pub(crate) fn push_items(&mut self, place: u64, first: u64, count: u64, list: &[u8])
        requires first { first ≡ held_count self.old }
        requires count { count ≡ length (leading_items list.now) }
        requires few { first + count < 2 ^ 32 }
        requires capacity { HasItemCapacity first count self.old }
        ensures taken { HasPushedItems H.hash (leading_items list.now) place self.old self.new }
        ensures disk { tiles_disk (held_tiles self.new) ≡ tiles_disk (held_tiles self.old) }
        ensures stored { tiles_stored (held_tiles self.new) ≡ tiles_stored (held_tiles self.old) }
    {
        self.push_places(ItemPlace { place, first }, blocks_begun(first, count));
        self.push_leaves(list);
    }
}
