//! The hashes of one level.

ghost use Rattle.std.specs.Prelude.{◌≡◌, ◌+◌, ◌-◌, ◌*◌, ◌%◌, ◌^◌, ◌<◌, ◌≤◌, [], ◌∷◌, ◌++◌};
ghost use Rattle.std.specs.Prelude.{length, take, drop, slice_index_or, vec_len, vec_capacity};
ghost use Rattle.std.specs.Prelude.{MatchOption, OnOk};
ghost use Rattle.tree_cache.specs.Rows.{RowState, row_count};
ghost use Rattle.tree_cache.specs.Tiled.{CanForget, HasForgotten};
ghost use Rattle.tree_core.specs.Tree.{pair_hash};

use mtc_io::Memory;
use std::alloc::Global;
use std::marker::Model;
use tree_core::{TreeHash, pair};

// The hashes of the full subtrees of one level, in their order, but for so many that are gone from
// their start.
#[derive(Drop)]
pub(crate) struct Row {
    gone: u64,
    hashes: Vec<[u8; 32]>,
}

impl Model for Row {
    ghost Value = { RowState };

    ghost view = { λ r. record {
      gone = r.gone;
      kept = r.hashes.items;
      spare = vec_capacity r.hashes - vec_len r.hashes;
    } };
}

impl Row {
    pub(crate) fn new(alloc: Global) -> Row
        ensures kept { result.kept ≡ [] }
        ensures gone { result.gone ≡ 0 }
    {
        Row {
            gone: 0,
            hashes: Vec::new(alloc),
        }
    }

    // How many hashes the row has, with those that are gone.
    pub(crate) fn count(&self) -> u64
        requires { row_count self.now < 2 ^ 64 }
        ensures { result ≡ row_count self.now }
    {
        self.gone + self.hashes.len() as u64
    }

    // The hashes that are retained.
    pub(crate) fn as_slice(&self) -> &[[u8; 32]]
        ensures { result.now ≡ self.now.kept }
    {
        self.hashes.as_slice()
    }

    // So many of the hashes, from an index on that counts those that are gone.
    pub(crate) fn part(&self, from: u64, count: usize) -> &[[u8; 32]]
        requires gone { self.now.gone ≤ from }
        requires within { from + count ≤ self.now.gone + length self.now.kept }
        ensures { result.now ≡ take count (drop (from - self.now.gone) self.now.kept) }
    {
        let hashes = self.hashes.as_slice();
        let first = (from - self.gone) as usize;
        &hashes[first..first + count]
    }

    // Reserves capacity for at least `count` more hashes.
    pub(crate) fn reserve(&mut self, count: usize) -> Result<(), Memory>
        ensures gone { self.new.gone ≡ self.old.gone }
        ensures hashes { self.new.kept ≡ self.old.kept }
        ensures spare { OnOk result (count ≤ self.new.spare) }
        ensures kept { self.old.spare ≤ self.new.spare }
    {
        self.hashes.reserve(count)?;
        Ok(())
    }

    // Appends a hash, within the capacity.
    pub(crate) fn push(&mut self, hash: &[u8; 32])
        requires { 0 < self.old.spare }
        ensures gone { self.new.gone ≡ self.old.gone }
        ensures hashes { self.new.kept ≡ self.old.kept ++ hash.now ∷ [] }
        ensures spare { self.old.spare ≤ self.new.spare + 1 }
    {
        if self.hashes.push(*hash).is_err() {
            unreachable!()
        }
    }

    // The hash over the pair of this number, which counts those that are gone.
    pub(crate) fn pair_at<H: TreeHash>(&self, number: u64) -> [u8; 32]
        requires few { row_count self.now < 2 ^ 64 }
        requires gone { self.now.gone ≤ 2 * number }
        requires within { 2 * number + 2 ≤ row_count self.now }
        ensures { result ≡ pair_hash H.hash
            (slice_index_or self.now.kept (2 * number - self.now.gone) [])
            (slice_index_or self.now.kept (2 * number - self.now.gone + 1) []) }
    {
        let two = self.part(2 * number, 2);
        pair::<H>(&two[0], &two[1])
    }

    // Drops hashes from the start until so many are gone.
    pub(crate) fn let_go(&mut self, gone: u64)
        requires { CanForget gone self.old }
        ensures { HasForgotten gone self.old self.new }
    {
        let count = (gone - self.gone) as usize;
        drop_prefix(&mut self.hashes, count);
        self.gone = gone;
    }

    // The hash over the last two, where each hash has a sibling.
    pub(crate) fn last_pair<H: TreeHash>(&self) -> Option<[u8; 32]>
        requires { 0 < length self.now.kept }
        ensures { MatchOption result (length self.now.kept % 2 ≡ 1) (λ parent.
            (length self.now.kept % 2 ≡ 0)
            × (parent ≡ pair_hash H.hash
            (slice_index_or self.now.kept (length self.now.kept - 2) [])
            (slice_index_or self.now.kept (length self.now.kept - 1) []))) }
    {
        let hashes = self.hashes.as_slice();
        if hashes.len() % 2 == 1 {
            return None;
        }
        let (left, right) = (&hashes[hashes.len() - 2], &hashes[hashes.len() - 1]);
        Some(pair::<H>(left, right))
    }
}

// Drops so many hashes from the start, and frees their memory where a smaller block can be had.
fn drop_prefix(hashes: &mut Vec<[u8; 32]>, count: usize)
    requires { count ≤ length hashes.old.items }
    ensures items { hashes.new.items ≡ drop count hashes.old.items }
    ensures spare { vec_capacity hashes.old - vec_len hashes.old
        ≤ vec_capacity hashes.new - vec_len hashes.new }
{
    let capacity = hashes.capacity() - count;
    drop(hashes.drain(..count));
    hashes.shrink_to(capacity);
}
