//! Tiles read into frames, and nodes out of them.

ghost use Rattle.std.specs.Prelude.{◌≡◌, ℕ, ◌+◌, ◌-◌, ◌*◌, ◌%◌, ◌^◌, ◌<◌, ◌≤◌, ◌⊎◌, List, length};
ghost use Rattle.std.specs.Prelude.{Some, IfOk, IsOk, OnOk, OnErr};
ghost use Rattle.byte_formats.specs.Types.{Hash, Text};
ghost use Rattle.disk_core.specs.Times.{OnlyReads};
ghost use Rattle.frame_pool.specs.Frames.{HoldsKey, IsUnheld};
ghost use Rattle.frame_pool.specs.declared.key.TileKey.{TileKey as Key};
ghost use Rattle.mtc_io.specs.Counts.{HasCause, Rose};
ghost use Rattle.tile_store.specs.Contents.{hash_in};
ghost use Rattle.tile_store.specs.Frames.{FramesHold, HasNoPins};
ghost use Rattle.tile_store.specs.Inside.{IsNodeIn};
ghost use Rattle.tile_store.specs.Layout.{tile_at};
ghost use Rattle.tree_core.specs.Path.{part_of};
ghost use Rattle.tree_core.specs.Tree.{root_of};

use crate::layout::offset_of;
use disk_core::{Disk, read_part};
use frame_pool::{Pool, Slot, TileKey};
use mtc_io::Failed;
use tree_core::{TreeHash, pair};

// The bytes of a hash.
pub(crate) const HASH: usize = 32;

// The frame of a tile. If none holds it yet, one is claimed for it, and the tile is read there.
pub(crate) fn load<T: Disk>(disk: &mut T, pool: &mut Pool, key: TileKey) -> Result<Slot, Failed>
    requires low { key.level ≤ 2 }
    requires few { key.place < 2 ^ 24 }
    requires there { tile_at key.level key.place + 8192 ≤ T.known disk.old }
    requires some { 1 ≤ length pool.old.keys }
    requires free { HasNoPins pool.old }
    ensures held { IfOk result (λ slot. HoldsKey pool.new slot.0 key) }
    ensures read { OnOk result (IsUnheld pool.old key
        → Rose (T.clock_at disk.old) (T.clock_at disk.new)) }
    ensures still { (IsUnheld pool.old key → ⊥) → disk.new ≡ disk.old }
    ensures same { (IsUnheld pool.old key → ⊥) → pool.new ≡ pool.old }
    ensures sure { (IsUnheld pool.old key → ⊥) → IsOk result }
    ensures frames { (b : Text) → T.contents disk.old ≡ Some b → FramesHold b pool.old
        → FramesHold b pool.new }
    ensures keys { (slot : ℕ) (k : Key) → HoldsKey pool.new slot k
        → (k ≡ key) ⊎ HoldsKey pool.old slot k }
    ensures keys_err { OnErr result ((slot : ℕ) (k : Key) → HoldsKey pool.new slot k
        → HoldsKey pool.old slot k) }
    ensures free { HasNoPins pool.new }
    ensures count { length pool.new.keys ≡ length pool.old.keys }
    ensures only_reads { OnlyReads T.Disk disk.old disk.new }
    ensures cause { HasCause (T.faults disk.old) (T.faults disk.new) result }
{
    if let Some(slot) = pool.find(key) {
        return Ok(slot);
    }
    let slot = pool.claim(key);
    match read_part(disk, offset_of(key), pool.frame_mut(slot)) {
        Ok(()) => Ok(slot),
        Err(Failed) => {
            pool.release(slot);
            Err(Failed)
        }
    }
}

// The node above 2^level hashes.
fn node_over<H: TreeHash>(hashes: &[u8], level: u32) -> [u8; 32]
    requires small { level < 8 }
    requires size { length hashes.now ≡ 32 * 2 ^ level }
    ensures { (leaves : List Hash) (base from : ℕ) → ((i : ℕ) → i < 2 ^ level
        → hash_in i hashes.now ≡ root_of H.hash
        (part_of leaves ((from + i) * 2 ^ base) ((from + i + 1) * 2 ^ base)))
        → (from + 2 ^ level) * 2 ^ base ≤ length leaves
        → result ≡ root_of H.hash
        (part_of leaves (from * 2 ^ base) ((from + 2 ^ level) * 2 ^ base)) }
{
    if level == 0 {
        let mut hash = [0; HASH];
        hash.copy_from_slice(hashes);
        return hash;
    }
    let (left, right) = hashes.split_at(hashes.len() / 2);
    pair::<H>(
        &node_over::<H>(left, level - 1),
        &node_over::<H>(right, level - 1),
    )
}

// The first of the hashes of a tile that lie below one of its nodes, and how many these are.
fn below(level: u32, place: u64) -> (usize, usize)
    requires { level < 64 }
    ensures first { result.0 ≡ place % 2 ^ (8 - level % 8) * 2 ^ (level % 8) }
    ensures count { result.1 ≡ 2 ^ (level % 8) }
    ensures within { result.0 + result.1 ≤ 256 }
{
    let count = 1 << (level % 8);
    let first = (place % (1 << (8 - level % 8))) as usize * count;
    (first, count)
}

// The hashes of a tile that lie below one of its nodes.
fn hashes_below(tile: &[u8], level: u32, place: u64) -> &[u8]
    requires whole { length tile.now ≡ 8192 }
    requires small { level < 64 }
    ensures size { length result.now ≡ 32 * 2 ^ (level % 8) }
    ensures hashes { (i : ℕ) → i < 2 ^ (level % 8) → hash_in i result.now
        ≡ hash_in (place % 2 ^ (8 - level % 8) * 2 ^ (level % 8) + i) tile.now }
{
    let (first, count) = below(level, place);
    &tile[HASH * first..HASH * (first + count)]
}

// A node of a tile, hashed alone.
pub(crate) fn node_alone<H: TreeHash>(tile: &[u8], level: u32, place: u64) -> [u8; 32]
    requires whole { length tile.now ≡ 8192 }
    requires small { level < 64 }
    ensures { IsNodeIn H.hash tile.now (place % 2 ^ (8 - level % 8) * 2 ^ (level % 8))
        (2 ^ (level % 8)) result }
{
    node_over::<H>(hashes_below(tile, level, place), level % 8)
}
