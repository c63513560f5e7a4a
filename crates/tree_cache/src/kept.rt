//! Rows of nodes, of which those at the start may be gone.

ghost use Rattle.std.specs.Prelude.{◌≡◌, ℕ, ◌+◌, ◌*◌, ◌/◌, ◌^◌, ◌<◌, ◌≤◌, List, [], ◌∷◌, ◌++◌};
ghost use Rattle.std.specs.Prelude.{length, slice_index_or, IfSome, IfNone, OnOk, OnErr};
ghost use Rattle.byte_formats.specs.Types.{Hash, HashFunction};
ghost use Rattle.tree_cache.specs.Cached.{AreFulls};
ghost use Rattle.tree_cache.specs.Rows.{AreRowsOf, HaveFilled, HaveGrown, count_of, filled_of};
ghost use Rattle.tree_cache.specs.Rows.{filled_to, gone_at, spare_of};
ghost use Rattle.tree_cache.specs.Tiled.{gone_of};
ghost use Rattle.tree_core.specs.Path.{part_of};
ghost use Rattle.tree_core.specs.Tree.{root_of};

use crate::row::Row;
use crate::rows::{fill_above, first_length, forget_from, make_capacity, nodes_in_tiles};
use mtc_io::Memory;
use std::alloc::Global;
use std::marker::Model;
use tree_core::TreeHash;

/// The hashes of the full subtrees of a list of leaf hashes, in rows from the leaves up, but for so
/// many at the start of each row. Those above the leaves are late: they are made over the first
/// leaves alone, as many as were asked for.
///
/// Rows don't say which leaves these are, since the first may be gone: they are rows of each list
/// that has these hashes.
#[derive(Drop)]
pub struct Rows {
    first: Row,
    above: Vec<Row>,
    capacity: u64,
    alloc: Global,
}

impl Model for Rows {
    ghost use Rattle.tree_cache.specs.Rows.{AreSound, RowsState};

    ghost Value = { RowsState };

    ghost view = { λ r. record {
      first = r.first;
      above = r.above.items;
      capacity = r.capacity;
    } };

    ghost invariant = { λ r. AreSound (record {
      first = r.first;
      above = r.above.items;
      capacity = r.capacity;
    }) };
}

impl Rows {
    ghost use Rattle.tree_cache.specs.Rows.{AreSound, IsEmpty, IsRowAt, levels_of};

    /// The rows of no leaves. It takes no memory.
    pub fn new(alloc: Global) -> Rows
        ensures first { IsEmpty result.first }
        ensures above { result.above ≡ [] }
        ensures capacity { result.capacity ≡ 0 }
    {
        Rows {
            first: Row::new(alloc),
            above: Vec::new(alloc),
            capacity: 0,
            alloc,
        }
    }

    /// How many leaves there are, those that are gone with them.
    pub fn count(&self) -> u64
        ensures value { result ≡ count_of self.now }
        ensures within { count_of self.now ≤ self.now.capacity }
    {
        let _capacity = self.capacity;
        self.first.count()
    }

    /// Reserves capacity for at least `count` more leaves and the nodes over them. It is refused
    /// only where fewer are spare. The rows stay as they were, whether the call is refused or not.
    pub fn reserve(&mut self, count: usize) -> Result<(), Memory>
        ensures grown { HaveGrown self.old self.new }
        ensures spare { OnOk result (count ≤ spare_of self.new) }
        ensures kept { self.old.capacity ≤ self.new.capacity }
        ensures full { OnErr result (spare_of self.old < count) }
    {
        let size = self.first.count();
        if count as u64 <= self.capacity - size {
            return Ok(());
        }
        // Growth by as many leaves as are retained makes the cost of many single leaves linear.
        let more = self.first.as_slice().len().max(count);
        let capacity = size.checked_add(more as u64).ok_or(Memory)?;
        self.first.reserve(more)?;
        make_capacity(self.alloc, &mut self.above, capacity / 2)?;
        self.capacity = capacity;
        Ok(())
    }

    /// Appends a leaf hash, within the capacity. It hashes nothing, and so makes no node.
    pub fn push(&mut self, leaf: &[u8; 32])
        requires { count_of self.old < self.old.capacity }
        ensures pushed { (h : HashFunction) (leaves : List Hash) → AreRowsOf h leaves self.old
            → AreRowsOf h (leaves ++ leaf.now ∷ []) self.new }
        ensures gone { (level : ℕ) → gone_at self.new level ≡ gone_at self.old level }
        ensures count { count_of self.new ≡ count_of self.old + 1 }
        ensures filled { filled_of self.new ≡ 2 * (filled_of self.old / 2) + 1 }
        ensures capacity { self.new.capacity ≡ self.old.capacity }
    {
        self.first.push(leaf);
    }

    /// Makes those of the nodes over the first `size` leaves that aren't made yet, within the
    /// capacity. It hashes each of their pairs once, and makes no node over other leaves.
    pub fn fill<H: TreeHash>(&mut self, size: u64)
        requires { size ≤ count_of self.old }
        ensures filled { filled_of self.new ≡ filled_to size self.old }
        ensures rows { HaveFilled H.hash self.old self.new }
    {
        let made = first_length(self.above.as_slice());
        let wanted = made.max(size / 2);
        fill_above::<H>(&self.first, self.above.as_mut_slice(), made, wanted);
    }

    // The row of a level; none where no list of fewer than 2^64 leaves has one.
    fn level(&self, level: u32) -> Option<&Row>
        ensures some { IfSome result (λ row. IsRowAt self.now level row.now) }
        ensures none { IfNone result (length (levels_of self.now) ≤ level) }
        ensures sound { AreSound self.now }
    {
        if level == 0 {
            return Some(&self.first);
        }
        self.above.get(level as usize - 1)
    }

    /// The hashes of a level that are retained; none if the list is shorter than that.
    pub fn row(&self, level: u32) -> &[[u8; 32]]
        ensures { (h : HashFunction) (leaves : List Hash) → AreRowsOf h leaves self.now
            → filled_of self.now ≡ count_of self.now → gone_at self.now level ≡ 0
            → AreFulls h level leaves result.now }
    {
        match self.level(level) {
            Some(row) => row.as_slice(),
            None => &[],
        }
    }

    /// The hashes of so many full subtrees of `2^level` leaves, from an index on. It hashes
    /// nothing.
    pub fn hashes(&self, level: u32, from: u64, count: usize) -> &[[u8; 32]]
        requires some { 1 ≤ count }
        requires within { (from + count) * 2 ^ level ≤ filled_of self.now }
        requires kept { gone_at self.now level ≤ from }
        ensures size { length result.now ≡ count }
        ensures each { (h : HashFunction) (leaves : List Hash) → AreRowsOf h leaves self.now
            → (place : ℕ) → place < count → slice_index_or result.now place []
            ≡ root_of h (part_of leaves ((from + place) * 2 ^ level)
            ((from + place + 1) * 2 ^ level)) }
    {
        match self.level(level) {
            Some(row) => row.part(from, count),
            None => unreachable!(),
        }
    }

    /// The hash of the `2^level` leaves from `place * 2^level` on. It hashes nothing.
    pub fn hash_at(&self, level: u32, place: u64) -> [u8; 32]
        requires within { (place + 1) * 2 ^ level ≤ filled_of self.now }
        requires kept { gone_at self.now level ≤ place }
        ensures { (h : HashFunction) (leaves : List Hash) → AreRowsOf h leaves self.now
            → result ≡ root_of h (part_of leaves (place * 2 ^ level) ((place + 1) * 2 ^ level)) }
    {
        self.hashes(level, place, 1)[0]
    }

    /// Drops the nodes that stand in the tiles that the first `size` leaves fill. Their memory is
    /// freed where smaller blocks can be had; the capacity for more leaves stays.
    pub fn forget(&mut self, size: u64)
        requires few { size < 2 ^ 32 }
        requires within { size ≤ filled_of self.old }
        requires before { (level : ℕ) → gone_at self.old level ≤ gone_of size level }
        ensures same { (h : HashFunction) (leaves : List Hash)
            → AreRowsOf h leaves self.old → AreRowsOf h leaves self.new }
        ensures gone { (level : ℕ) → gone_at self.new level ≡ gone_of size level }
        ensures count { count_of self.new ≡ count_of self.old }
        ensures filled { filled_of self.new ≡ filled_of self.old }
        ensures capacity { self.new.capacity ≡ self.old.capacity }
    {
        self.first.let_go(nodes_in_tiles(size, 0));
        forget_from(self.above.as_mut_slice(), size, 1);
    }
}
