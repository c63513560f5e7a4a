//! Tiles written from the nodes in memory.

ghost use Rattle.std.specs.Prelude.{◌≡◌, ℕ, ◌+◌, ◌*◌, ◌^◌, ◌<◌, ◌≤◌, max, List, [], length};
ghost use Rattle.std.specs.Prelude.{slice_index_or, Some, is_some, IfSome, OnOk, OnErr};
ghost use Rattle.byte_formats.specs.Types.{Hash, HashFunction, Text};
ghost use Rattle.disk_core.specs.Disk.{Only};
ghost use Rattle.disk_core.specs.Times.{LeavesOnly};
ghost use Rattle.mtc_io.specs.Counts.{HasCause};
ghost use Rattle.tile_store.specs.Contents.{IsTile, hash_in};
ghost use Rattle.tile_store.specs.Layout.{IsFull, tile_at};
ghost use Rattle.tile_store.specs.Writing.{HaveTiles, IsCrashStateAfter, IsTileWritten};
ghost use Rattle.tile_store.specs.Writing.{KeepsPrefix};
ghost use Rattle.tile_store.specs.Writing.{TilesAreWritten, WritesAfter};
ghost use Rattle.tree_cache.specs.Rows.{AreRowsOf, count_of, filled_of, gone_at};

use crate::layout::{offset_of, tile_with};
use disk_core::{Disk, make_durable};
use frame_pool::TileKey;
use mtc_io::Failed;
use tree_cache::Rows;
use tree_core::TreeHash;

// The bytes of hashes, one after the other.
pub(crate) fn bytes_of(hashes: &[[u8; 32]]) -> &[u8]
    ensures size { length result.now ≡ 32 * length hashes.now }
    ensures each { (i : ℕ) → i < length hashes.now
        → hash_in i result.now ≡ slice_index_or hashes.now i [] }
{
    hashes.as_flattened()
}

// The bytes of a tile of the rows.
pub(crate) fn tile_bytes(rows: &Rows, key: TileKey) -> &[u8]
    requires low { key.level ≤ 2 }
    requires few { count_of rows.now < 2 ^ 32 }
    requires full { IsFull (filled_of rows.now) key.level key.place }
    requires kept { gone_at rows.now (8 * key.level) ≤ 256 * key.place }
    ensures size { length result.now ≡ 8192 }
    ensures tile { (h : HashFunction) (leaves : List Hash) → AreRowsOf h leaves rows.now
        → IsTile h leaves key.level key.place result.now }
{
    bytes_of(rows.hashes(8 * key.level as u32, 256 * key.place, 256))
}

// Writes one tile.
fn put<H: TreeHash, T: Disk>(disk: &mut T, rows: &Rows, key: TileKey) -> Result<(), Failed>
    requires low { key.level ≤ 2 }
    requires few { count_of rows.now < 2 ^ 32 }
    requires full { IsFull (filled_of rows.now) key.level key.place }
    requires kept { gone_at rows.now (8 * key.level) ≤ 256 * key.place }
    requires place { tile_at key.level key.place ≤ T.known disk.old }
    ensures written { OnOk result (IsTileWritten H.hash rows.now key.level key.place
        (T.contents disk.old) (T.contents disk.new)) }
    ensures contents { is_some (T.contents disk.new) ≡ is_some (T.contents disk.old) }
    ensures known { OnOk result (T.known disk.new
        ≡ max (tile_at key.level key.place + 8192) (T.known disk.old)) }
    ensures known_err { OnErr result (T.known disk.new ≡ T.known disk.old) }
    ensures any_time { LeavesOnly T.Disk disk.old disk.new
        (IsCrashStateAfter T.Disk disk.old (tile_at key.level key.place)) }
    ensures cause { HasCause (T.faults disk.old) (T.faults disk.new) result }
{
    disk.write_at(offset_of(key), tile_bytes(rows, key))
}

// Writes the tiles of these numbers, from one on up to another.
fn put_all<H: TreeHash, T: Disk>(
    disk: &mut T,
    rows: &Rows,
    from: u64,
    to: u64,
) -> Result<(), Failed>
    requires rows { HaveTiles rows.now from to }
    requires place { 8192 * from ≤ T.known disk.old }
    ensures written { OnOk result
        (TilesAreWritten T.Disk H.hash rows.now from to disk.old disk.new) }
    ensures following { WritesAfter T.Disk (8192 * from) disk.old disk.new }
    ensures reach { T.known disk.new ≤ max (8192 * to) (T.known disk.old) }
    ensures cause { HasCause (T.faults disk.old) (T.faults disk.new) result }
{
    for number in from..to {
        put::<H, T>(disk, rows, tile_with(number))?;
    }
    Ok(())
}

// Writes the tiles of these numbers, over bytes that are durable, and makes them durable.
pub(crate) fn write_tiles<H: TreeHash, T: Disk>(
    disk: &mut T,
    rows: &Rows,
    from: u64,
    to: u64,
) -> Result<(), Failed>
    requires rows { HaveTiles rows.now from to }
    requires place { 8192 * from ≤ T.known disk.old }
    ensures written { OnOk result
        (TilesAreWritten T.Disk H.hash rows.now from to disk.old disk.new) }
    ensures durable { OnOk result (IfSome (T.contents disk.new)
        (λ bytes. Only bytes (T.may_leave disk.new))) }
    ensures prefix { (before after : Text) → T.contents disk.old ≡ Some before
        → T.contents disk.new ≡ Some after → KeepsPrefix (8192 * from) before after }
    ensures following { WritesAfter T.Disk (8192 * from) disk.old disk.new }
    ensures reach { T.known disk.new ≤ max (8192 * to) (T.known disk.old) }
    ensures cause { HasCause (T.faults disk.old) (T.faults disk.new) result }
{
    make_durable(disk)?;
    put_all::<H, T>(disk, rows, from, to)?;
    make_durable(disk)
}
