//! Stored tiles compared with the nodes in memory.

ghost use Rattle.std.specs.Prelude.{◌≡◌, ◌↔◌, ◌+◌, ◌*◌, ◌^◌, ◌<◌, ◌≤◌, length, IsTrue, IfErr};
ghost use Rattle.std.specs.Prelude.{IfOk, OnOk};
ghost use Rattle.disk_core.specs.Disk.{part};
ghost use Rattle.frame_pool.specs.declared.key.TileKey.{TileKey as Key};
ghost use Rattle.frame_pool.specs.Frames.{IsUnheld};
ghost use Rattle.mtc_io.specs.Counts.{HasCause};
ghost use Rattle.tile_store.specs.Comparing.{BeginsBelow, HasTileReason, HaveCompared};
ghost use Rattle.tile_store.specs.Comparing.{HaveMatched, OverEach};
ghost use Rattle.tile_store.specs.Contents.{IsTile};
ghost use Rattle.tile_store.specs.Frames.{HasNoPins};
ghost use Rattle.tile_store.specs.declared.error.TileError.TheVariants.{BadTile};
ghost use Rattle.tile_store.specs.Layout.{IsFull, tile_at, tile_number};
ghost use Rattle.tile_store.specs.Writing.{HaveTiles};
ghost use Rattle.tree_cache.specs.Rows.{count_of, filled_of, gone_at};

use crate::TileError;
use crate::layout::{TILE, tile_with};
use crate::reading::load;
use crate::writing::tile_bytes;
use disk_core::{Disk, read_len};
use frame_pool::{Pool, TileKey};
use mtc_io::Failed;
use tree_cache::Rows;
use tree_core::TreeHash;

// That the file doesn't have this tile.
fn bad(key: TileKey) -> TileError
    ensures { result ≡ BadTile key.level key.place }
{
    TileError::BadTile {
        level: key.level,
        place: key.place,
    }
}

// Whether the file has the tile of the rows. It is read into a frame, which is empty again then.
fn matches<H: TreeHash, T: Disk>(
    disk: &mut T,
    pool: &mut Pool,
    rows: &Rows,
    key: TileKey,
) -> Result<bool, Failed>
    requires low { key.level ≤ 2 }
    requires few { count_of rows.now < 2 ^ 32 }
    requires full { IsFull (filled_of rows.now) key.level key.place }
    requires kept { gone_at rows.now (8 * key.level) ≤ 256 * key.place }
    requires there { tile_at key.level key.place + 8192 ≤ T.known disk.old }
    requires unheld { IsUnheld pool.old key }
    requires some { 1 ≤ length pool.old.keys }
    requires free { HasNoPins pool.old }
    ensures same { OverEach T.Disk H.hash rows.now disk.old pool.old (λ b leaves.
        IfOk result (λ yes. IsTrue yes ↔ IsTile H.hash leaves key.level key.place
        (part (tile_at key.level key.place) 8192 b))) }
    ensures compared { HaveCompared T.Disk disk.old disk.new pool.old pool.new }
    ensures cause { HasCause (T.faults disk.old) (T.faults disk.new) result }
{
    let slot = load(disk, pool, key)?;
    let same = pool.frame(slot) == tile_bytes(rows, key);
    pool.law_sound();
    pool.release(slot);
    Ok(same)
}

// Whether the file has the tiles of these numbers, all of which end within it.
fn compare<H: TreeHash, T: Disk>(
    disk: &mut T,
    pool: &mut Pool,
    rows: &Rows,
    from: u64,
    to: u64,
) -> Result<(), TileError>
    requires rows { HaveTiles rows.now from to }
    requires there { 8192 * to ≤ T.known disk.old }
    requires unheld { (key : Key) → from ≤ tile_number key.level key.place
        → IsUnheld pool.old key }
    requires some { 1 ≤ length pool.old.keys }
    requires free { HasNoPins pool.old }
    ensures compared { HaveCompared T.Disk disk.old disk.new pool.old pool.new }
    ensures ok { OnOk result (HaveMatched T.Disk H.hash rows.now from to disk.old pool.old) }
    ensures fine { OnOk result (T.faults disk.new ≡ T.faults disk.old) }
    ensures err { IfErr result
        (HasTileReason T.Disk H.hash rows.now from to disk.old disk.new pool.old) }
    ensures begins { IfErr result (BeginsBelow (T.known disk.new)) }
{
    for number in from..to {
        let key = tile_with(number);
        if !matches::<H, T>(disk, pool, rows, key)? {
            return Err(bad(key));
        }
    }
    Ok(())
}

// Whether the file has the tiles of these numbers. The first that it doesn't have is reported.
pub(crate) fn check<H: TreeHash, T: Disk>(
    disk: &mut T,
    pool: &mut Pool,
    rows: &Rows,
    from: u64,
    to: u64,
) -> Result<(), TileError>
    requires rows { HaveTiles rows.now from to }
    requires order { from < to }
    requires place { 8192 * from ≤ T.known disk.old }
    requires unheld { (key : Key) → from ≤ tile_number key.level key.place
        → IsUnheld pool.old key }
    requires some { 1 ≤ length pool.old.keys }
    requires free { HasNoPins pool.old }
    ensures compared { HaveCompared T.Disk disk.old disk.new pool.old pool.new }
    ensures ok { OnOk result (HaveMatched T.Disk H.hash rows.now from to disk.old pool.old) }
    ensures reach { OnOk result (8192 * to ≤ T.known disk.new) }
    ensures fine { OnOk result (T.faults disk.new ≡ T.faults disk.old) }
    ensures err { IfErr result
        (HasTileReason T.Disk H.hash rows.now from to disk.old disk.new pool.old) }
    ensures begins { IfErr result (BeginsBelow (T.known disk.new)) }
{
    let whole = read_len(disk)? / TILE;
    compare::<H, T>(disk, pool, rows, from, to.min(whole))?;
    if whole < to {
        return Err(bad(tile_with(whole.max(from))));
    }
    Ok(())
}
