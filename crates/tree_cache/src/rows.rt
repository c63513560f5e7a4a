//! The rows of the nodes of a tree, from the pairs of leaves up.

ghost use Rattle.std.specs.Prelude.{◌≡◌, ℕ, ◌+◌, ◌*◌, ◌^◌, ◌<◌, ◌≤◌, List, length, IfOk, OnOk};
ghost use Rattle.byte_formats.specs.Types.{Hash, HashFunction};
ghost use Rattle.tree_cache.specs.Rows.{AreFullRowsOf, AreLong, ArePairsFilled, CanReach};
ghost use Rattle.tree_cache.specs.Rows.{HaveCapacity, HaveCount, HaveLevels, HaveNone, HavePushed};
ghost use Rattle.tree_cache.specs.Rows.{HoldUpTo, NodesHaveGrown, gone_in, first_length, row_count};
ghost use Rattle.tree_cache.specs.Tiled.{CanForgetAll, gone_of};

use crate::row::Row;
use mtc_io::Memory;
use std::alloc::Global;
use tree_core::TreeHash;

// The levels above the leaves that a list of fewer than 2^64 leaves has full subtrees of.
const LEVELS: usize = 63;

// The rows of no hashes.
pub(crate) fn empty_rows(alloc: Global) -> Result<Vec<Row>, Memory>
    ensures count { IfOk result (λ rows. length rows.items ≡ 63) }
    ensures none { IfOk result (λ rows. HaveNone rows.items) }
{
    let mut rows = Vec::new(alloc);
    for _level in 0..LEVELS {
        rows.push(Row::new(alloc))?;
    }
    Ok(rows)
}

// How many hashes the first of some rows has, with those that are gone.
pub(crate) fn first_length(rows: &[Row]) -> u64
    requires { first_length rows.now < 2 ^ 64 }
    ensures { result ≡ first_length rows.now }
{
    match rows.first() {
        Some(row) => row.count(),
        None => 0,
    }
}

// Makes the rows, where there are none yet.
fn add_levels(alloc: Global, rows: &mut Vec<Row>) -> Result<(), Memory>
    requires { HaveLevels rows.old.items }
    ensures grown { NodesHaveGrown rows.old.items rows.new.items }
    ensures levels { HaveLevels rows.new.items }
    ensures all { OnOk result (length rows.new.items ≡ 63) }
{
    if rows.is_empty() {
        *rows = empty_rows(alloc)?;
    }
    Ok(())
}

// Reserves capacity for so many nodes in the first of these rows, and for those above them.
fn grow(rows: &mut [Row], capacity: u64) -> Result<(), Memory>
    requires small { capacity < 2 ^ length rows.old }
    requires counted { HaveCount rows.old }
    ensures grown { NodesHaveGrown rows.old rows.new }
    ensures holds { OnOk result (HoldUpTo capacity rows.new) }
{
    match rows.split_first_mut() {
        None => Ok(()),
        Some((row, above)) => {
            let count = row.count();
            row.reserve(capacity.saturating_sub(count) as usize)?;
            grow(above, capacity / 2)
        }
    }
}

// Reserves capacity for so many hashes in the first row, and for the nodes above them.
pub(crate) fn make_capacity(alloc: Global, rows: &mut Vec<Row>, capacity: u64) -> Result<(), Memory>
    requires small { capacity < 2 ^ 63 }
    requires levels { HaveLevels rows.old.items }
    requires counted { HaveCount rows.old.items }
    ensures grown { NodesHaveGrown rows.old.items rows.new.items }
    ensures levels { HaveLevels rows.new.items }
    ensures holds { OnOk result (HoldUpTo capacity rows.new.items) }
{
    add_levels(alloc, rows)?;
    grow(rows.as_mut_slice(), capacity)
}

// Appends a hash to the first of these rows, and to those above it each node of which it is the
// last part.
pub(crate) fn push_up<H: TreeHash>(rows: &mut [Row], hash: &[u8; 32])
    requires { HaveCapacity rows.old }
    ensures { HavePushed H.hash hash.now rows.old rows.new }
{
    match rows.split_first_mut() {
        None => unreachable!(),
        Some((row, above)) => {
            row.push(hash);
            if let Some(parent) = row.last_pair::<H>() {
                push_up::<H>(above, &parent);
            }
        }
    }
}

// Makes the nodes over the pairs of a row, from one of these on up to another.
pub(crate) fn fill_above<H: TreeHash>(row: &Row, above: &mut [Row], from: u64, to: u64)
    requires few { row_count row.now < 2 ^ 64 }
    requires order { from ≤ to }
    requires gone { row.now.gone ≤ 2 * from }
    requires within { 2 * to ≤ row_count row.now }
    requires capacity { CanReach from to above.old }
    ensures { ArePairsFilled H.hash row.now from to above.old above.new }
{
    for number in from..to {
        push_up::<H>(above, &row.pair_at::<H>(number));
    }
}

// How many nodes of a level stand in the tiles that the first `size` leaves fill.
pub(crate) fn nodes_in_tiles(size: u64, level: u32) -> u64
    requires few { size < 2 ^ 32 }
    requires small { level < 64 }
    ensures { result ≡ gone_of size level }
{
    let width = 8 * (level / 8 + 1);
    if width == 64 {
        return 0;
    }
    (size >> width) * (1 << (8 - level % 8))
}

// Drops the nodes, from this level on, that stand in the tiles that the first `size` leaves fill.
pub(crate) fn forget_from(rows: &mut [Row], size: u64, level: u32)
    requires few { size < 2 ^ 32 }
    requires small { level + length rows.old ≤ 64 }
    requires can { CanForgetAll size level rows.old }
    ensures same { (h : HashFunction) (hashes : List Hash)
        → AreFullRowsOf h hashes rows.old → AreFullRowsOf h hashes rows.new }
    ensures long { (count : ℕ) → AreLong count rows.old → AreLong count rows.new }
    ensures holds { (capacity : ℕ) → HoldUpTo capacity rows.old → HoldUpTo capacity rows.new }
    ensures gone { (at : ℕ) → at < length rows.old
        → gone_in rows.new at ≡ gone_of size (level + at) }
{
    match rows.split_first_mut() {
        None => (),
        Some((row, above)) => {
            row.let_go(nodes_in_tiles(size, level));
            forget_from(above, size, level + 1);
        }
    }
}
