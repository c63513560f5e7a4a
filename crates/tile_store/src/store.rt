//! The store of nodes.

ghost use Rattle.std.specs.Prelude.{◌≡◌, ◌↔◌, ℕ, ◌+◌, ◌*◌, ◌/◌, ◌%◌, ◌^◌, ◌<◌, ◌≤◌, max, []};
ghost use Rattle.std.specs.Prelude.{length, Some, IsSome, IfSome, IfOk, IfErr};
ghost use Rattle.std.specs.Prelude.{IsOk, OnOk, OnErr};
ghost use Rattle.std.proofs.Props.{props};
ghost use Rattle.byte_formats.specs.Types.{Text};
ghost use Rattle.disk_core.specs.Disk.{Only};
ghost use Rattle.disk_core.specs.Times.{LeavesOnly, OnlyReads};
ghost use Rattle.frame_pool.specs.Frames.{HoldsKey, IsUnheld};
ghost use Rattle.frame_pool.specs.declared.key.TileKey.{TileKey as Key};
ghost use Rattle.mtc_io.specs.Counts.{HasCause, Rose};
ghost use Rattle.tile_store.specs.Frames.{HasNoPins};
ghost use Rattle.tile_store.specs.Layout.{IsFull, tiles_end, tiles_in};
ghost use Rattle.tile_store.specs.Sound.{IsSoundOver, IsSoundOver-prop};
ghost use Rattle.tree_cache.specs.Rows.{count_of, filled_of, gone_at};
ghost use Rattle.tree_cache.specs.Tiled.{gone_of};

use crate::TileError;
use crate::checking::check;
use crate::inside::FrameNodes;
use crate::layout::{count_tiles, is_full, number_of, tile_of};
use crate::reading::load;
use crate::writing::write_tiles;
use disk_core::{Disk, make_durable};
use frame_pool::{Pool, Slot, TileKey};
use mtc_io::{Failed, Memory};
use std::alloc::Global;
use std::marker::PhantomData;
use tree_cache::Rows;
use tree_core::TreeHash;
use tree_proofs::Nodes;

/// A list of fewer than 2^32 leaf hashes as nodes. Those in adopted tiles come out of the file,
/// through a frame, and the others are retained in memory: the leaf hashes at once, and the nodes
/// over them when one is asked for, and before tiles over them are stored or adopted. The memory
/// for these is taken with the leaves, so a node takes none.
///
/// If the model knows the bytes of the device, contracts see the leaf hashes. They always see how
/// many there are, how many more need no memory, and the sizes of the lists whose full tiles are
/// stored and adopted.
pub struct Tiles<H: TreeHash, T: Disk> {
    pub(crate) disk: T,
    pub(crate) pool: Pool,
    pub(crate) rows: Rows,
    inside: FrameNodes<H>,
    pub(crate) adopted: u64,
    pub(crate) stored: u64,
    function: PhantomData<H>,
    ghost few: { count_of rows < 2 ^ 32 },
    ghost whole: { adopted % 256 ≡ 0 },
    ghost written: { adopted ≤ stored },
    ghost within: { stored ≤ count_of rows },
    ghost reach: { tiles_end stored ≤ T.Disk.known disk },
    ghost made: { adopted ≤ filled_of rows },
    ghost gone: { (level : ℕ) → gone_at rows level ≡ gone_of adopted level },
    ghost beside: { length inside.tiles.items ≤ length pool.keys },
    ghost some: { 1 ≤ length pool.keys },
    ghost free: { HasNoPins pool },
    ghost keys: { (slot : ℕ) (key : Key) → HoldsKey pool slot key
        → IsFull adopted key.level key.place },
    ghost contents: { (b : Text) → T.Disk.contents disk ≡ Some b
        → IsSoundOver H.TreeHash.hash adopted
        stored rows pool b } by { Prim.hlevel (props, IsSoundOver-prop) },
}

// A drop in one step: a derived one is proved field by field wherever a value is dropped.
impl<H: TreeHash, T: Disk + Drop> Drop for Tiles<H, T> {
    fn drop(self) {
        let Tiles {
            disk: _,
            pool: _,
            rows: _,
            inside: _,
            adopted: _,
            stored: _,
            function: _,
        } = self;
    }
}

impl<H: TreeHash, T: Disk> Tiles<H, T> {
    ghost use Rattle.tile_store.specs.Calls.{HasLeafMore, HasSameLeaves, HasSameTiles, OnlyStores};
    ghost use Rattle.tile_store.specs.Calls.{OnlyWrites, RenewsTiles, TilesAreAdopted};
    ghost use Rattle.tile_store.specs.Calls.{TilesAreNotAdopted, TilesAreRenewed, TilesAreStored};
    ghost use Rattle.tile_store.specs.Causes.{BeginsWithin, HasCauseOf, IsFirstBad, IsNewTile};
    ghost use Rattle.tile_store.specs.Causes.{StandsIn};
    ghost use Rattle.tile_store.specs.Contents.{HoldsTiles, IsTile};
    ghost use Rattle.tile_store.specs.Frames.{IsHeld};
    ghost use Rattle.tile_store.specs.Layout.{tile_at, tile_level, tile_offset};
    ghost use Rattle.tile_store.specs.Writing.{HoldsFirst, IsCrashStateAfter, KeepsAfter};
    ghost use Rattle.tile_store.specs.Store.{IsAvailable, TilesStay, tiles_adopted, tiles_count};
    ghost use Rattle.tile_store.specs.Store.{tiles_disk, tiles_filled, tiles_filled_to};
    ghost use Rattle.tile_store.specs.Store.{tiles_leaves, tiles_pool, tiles_spare, tiles_stored};
    ghost use Rattle.tree_proofs.specs.Modelled.{IsRootOf};

    /// No leaves, over a device and a pool whose frames hold no tile. It takes no memory.
    pub fn new(alloc: Global, disk: T, pool: Pool) -> Tiles<H, T>
        requires { (slot : ℕ) (key : Key) → HoldsKey pool slot key → ⊥ }
        ensures disk { tiles_disk result ≡ disk }
        ensures pool { tiles_pool result ≡ pool }
        ensures count { tiles_count result ≡ 0 }
        ensures adopted { tiles_adopted result ≡ 0 }
        ensures stored { tiles_stored result ≡ 0 }
        ensures leaves { IfSome (tiles_leaves result) (λ leaves. leaves ≡ []) }
    {
        pool.law_sound();
        Tiles {
            disk,
            pool,
            rows: Rows::new(alloc),
            inside: FrameNodes::new(alloc),
            adopted: 0,
            stored: 0,
            function: PhantomData,
        }
    }

    /// Reserves capacity for at least `count` more leaves. It is refused only where fewer are
    /// spare. The store stays as it was, whether the call is refused or not.
    pub fn reserve(&mut self, count: usize) -> Result<(), Memory>
        ensures leaves { HasSameLeaves (tiles_filled self.old) self.old self.new }
        ensures same { HasSameTiles self.old self.new }
        ensures spare { OnOk result (count ≤ tiles_spare self.new) }
        ensures kept { tiles_spare self.old ≤ tiles_spare self.new }
        ensures full { OnErr result (tiles_spare self.old < count) }
    {
        self.rows.reserve(count)
    }

    /// Appends a leaf hash, and makes no node. It is refused only if no spare leaf is left, and
    /// leaves all as it was then.
    pub fn push(&mut self, leaf: &[u8; 32]) -> Result<(), Memory>
        requires { tiles_count self.old + 1 < 2 ^ 32 }
        ensures pushed { OnOk result (HasLeafMore leaf.now self.old self.new) }
        ensures leaves_err { OnErr result
            (HasSameLeaves (tiles_filled self.old) self.old self.new) }
        ensures same { HasSameTiles self.old self.new }
        ensures spare { tiles_spare self.old ≤ tiles_spare self.new + 1 }
        ensures full { OnErr result (tiles_spare self.old ≡ 0) }
    {
        self.reserve(1)?;
        self.rows.push(leaf);
        Ok(())
    }

    /// For how many leaves the tiles that they fill were stored or adopted.
    pub fn stored(&self) -> u64
        ensures { result ≡ tiles_stored self.now }
    {
        self.stored
    }

    /// The hash of the `2^level` leaves from `place * 2^level` on, as [`Nodes::node`]. If its tile
    /// is adopted, at Ok a frame holds that tile, and if none did before it was read from the
    /// device in this call. A node in memory, or one whose tile a frame holds, makes no call of the
    /// device, changes no frame and doesn't fail. `Failed` comes only if the device's count of
    /// failures rose.
    ///
    /// The nodes inside a tile are hashed together and retained, in 16,352 bytes for each frame,
    /// and once more while they are replaced. If memory is refused for them, the one is hashed
    /// alone.
    pub fn tile_node(&mut self, level: u32, place: u64) -> Result<[u8; 32], Failed>
        requires { (place + 1) * 2 ^ level ≤ tiles_count self.old }
        ensures value { IfOk result (IsRootOf H.hash (tiles_leaves self.old) (place * 2 ^ level)
            ((place + 1) * 2 ^ level)) }
        ensures list { tiles_leaves self.new ≡ tiles_leaves self.old }
        ensures held { OnOk result
            (IsFull (tiles_adopted self.old) (tile_level level) (tile_offset level place)
            → IsHeld (tiles_pool self.new) (tile_level level) (tile_offset level place)) }
        ensures read { OnOk result
            (IsFull (tiles_adopted self.old) (tile_level level) (tile_offset level place)
            → (IsHeld (tiles_pool self.old) (tile_level level) (tile_offset level place) → ⊥)
            → Rose (T.clock_at (tiles_disk self.old)) (T.clock_at (tiles_disk self.new))) }
        ensures still { IsAvailable self.old level place
            → tiles_disk self.new ≡ tiles_disk self.old }
        ensures same { IsAvailable self.old level place
            → tiles_pool self.new ≡ tiles_pool self.old }
        ensures sure { IsAvailable self.old level place → IsOk result }
        ensures stays { TilesStay self.old self.new }
        ensures cause { HasCause (T.faults (tiles_disk self.old)) (T.faults (tiles_disk self.new))
            result }
    {
        let key = tile_of(level, place);
        if !is_full(self.adopted, key) {
            return Ok(self.kept_node(level, place));
        }
        let slot = self.load(key)?;
        let tile = self.pool.frame(slot);
        Ok(self.inside.node(slot.0 as usize, tile, level, place))
    }

    // A node that stands in no adopted tile. Those over all leaves are made then, in memory that
    // was taken with the leaves.
    fn kept_node(&mut self, level: u32, place: u64) -> [u8; 32]
        requires within { (place + 1) * 2 ^ level ≤ tiles_count self.old }
        requires kept { gone_at self.old.rows level ≤ place }
        ensures value { IsRootOf H.hash (tiles_leaves self.old) (place * 2 ^ level)
            ((place + 1) * 2 ^ level) result }
        ensures list { tiles_leaves self.new ≡ tiles_leaves self.old }
        ensures disk { tiles_disk self.new ≡ tiles_disk self.old }
        ensures pool { tiles_pool self.new ≡ tiles_pool self.old }
        ensures stays { TilesStay self.old self.new }
    {
        let size = self.rows.count();
        self.rows.fill::<H>(size);
        self.rows.hash_at(level, place)
    }

    // The frame of an adopted tile.
    fn load(&mut self, key: TileKey) -> Result<Slot, Failed>
        requires { IsFull (tiles_adopted self.old) key.level key.place }
        ensures held { IfOk result (λ slot. HoldsKey (tiles_pool self.new) slot.0 key) }
        ensures read { OnOk result (IsUnheld (tiles_pool self.old) key
            → Rose (T.clock_at (tiles_disk self.old)) (T.clock_at (tiles_disk self.new))) }
        ensures still { (IsUnheld (tiles_pool self.old) key → ⊥)
            → tiles_disk self.new ≡ tiles_disk self.old }
        ensures same { (IsUnheld (tiles_pool self.old) key → ⊥)
            → tiles_pool self.new ≡ tiles_pool self.old }
        ensures sure { (IsUnheld (tiles_pool self.old) key → ⊥) → IsOk result }
        ensures stays { TilesStay self.old self.new }
        ensures cause { HasCause (T.faults (tiles_disk self.old)) (T.faults (tiles_disk self.new))
            result }
    {
        load(&mut self.disk, &mut self.pool, key)
    }

    /// The 8,192 bytes of the frame that holds a tile; none exactly if no frame does. Frames hold
    /// adopted tiles alone.
    pub fn held_tile(&self, key: TileKey) -> Option<&[u8]>
        ensures held { IsSome result ↔ IsHeld (tiles_pool self.now) key.level key.place }
        ensures tile { IfSome result (λ tile.
            IsFull (tiles_adopted self.now) key.level key.place
            × IfSome (tiles_leaves self.now) (λ leaves.
            IsTile H.hash leaves key.level key.place tile.now)) }
    {
        match self.pool.find(key) {
            Some(slot) => Some(self.pool.frame(slot)),
            None => None,
        }
    }

    /// Writes each tile that the first `size` leaves fill and that is not stored yet, and makes all
    /// durable. At any time a crash leaves what it might have left before, but for what follows the
    /// stored tiles. Whatever it answers, it makes the nodes over the first `size` leaves and no
    /// others, and brings the known length no further than the end of their tiles. It adopts none,
    /// and takes no memory.
    pub fn store(&mut self, size: u64) -> Result<(), Failed>
        requires { size ≤ tiles_count self.old }
        ensures leaves { HasSameLeaves (tiles_filled_to size self.old) self.old self.new }
        ensures only { OnlyStores size self.old self.new }
        ensures stored { OnOk result (TilesAreStored size self.old self.new) }
        ensures stored_err { OnErr result (tiles_stored self.new ≡ tiles_stored self.old) }
        ensures cause { HasCause (T.faults (tiles_disk self.old)) (T.faults (tiles_disk self.new))
            result }
    {
        self.write(size)?;
        self.stored = self.stored.max(size);
        Ok(())
    }

    // Makes the nodes of the tiles that are to be stored, and writes these.
    fn write(&mut self, size: u64) -> Result<(), Failed>
        requires { size ≤ tiles_count self.old }
        ensures leaves { HasSameLeaves (tiles_filled_to size self.old) self.old self.new }
        ensures only { OnlyStores size self.old self.new }
        ensures stored { tiles_stored self.new ≡ tiles_stored self.old }
        ensures known { OnOk result (T.known (tiles_disk self.new)
            ≡ max (tiles_end size) (T.known (tiles_disk self.old))) }
        ensures holds { OnOk result (IfSome (tiles_leaves self.old) (λ leaves. (c : Text)
            → T.may_leave (tiles_disk self.new) c → HoldsTiles H.hash leaves size c)) }
        ensures cause { HasCause (T.faults (tiles_disk self.old)) (T.faults (tiles_disk self.new))
            result }
    {
        self.write_from(count_tiles(self.stored), size)
    }

    // The same from the tile of a number on. If the model knows the bytes of the device, the stored
    // tiles come before it.
    fn write_from(&mut self, from: u64, size: u64) -> Result<(), Failed>
        requires within { size ≤ tiles_count self.old }
        requires new { tiles_in (tiles_adopted self.old) ≤ from }
        requires place { 8192 * from ≤ T.known (tiles_disk self.old) }
        requires following { (b : Text) → T.contents (tiles_disk self.old) ≡ Some b
            → tiles_in (tiles_stored self.old) ≤ from }
        ensures leaves { HasSameLeaves (tiles_filled_to size self.old) self.old self.new }
        ensures only { OnlyWrites from size self.old self.new }
        ensures stored { tiles_stored self.new ≡ tiles_stored self.old }
        ensures known { OnOk result (T.known (tiles_disk self.new)
            ≡ max (tiles_end size) (T.known (tiles_disk self.old))) }
        ensures holds { OnOk result (IfSome (T.contents (tiles_disk self.old)) (λ before.
            IfSome (tiles_leaves self.old) (λ leaves. HoldsFirst H.hash leaves from before
            → (c : Text) → T.may_leave (tiles_disk self.new) c
            → HoldsTiles H.hash leaves size c))) }
        ensures after { OnOk result (KeepsAfter T.Disk (8192 * max from (tiles_in size))
            (tiles_disk self.old) (tiles_disk self.new)) }
        ensures cause { HasCause (T.faults (tiles_disk self.old)) (T.faults (tiles_disk self.new))
            result }
    {
        self.rows.fill::<H>(size);
        write_tiles::<H, T>(&mut self.disk, &self.rows, from, count_tiles(size))
    }

    /// Reads back each tile that the first `size` leaves fill and that is not adopted yet, in the
    /// order in which they became full, and compares it with the nodes over these leaves, which it
    /// makes if they aren't made yet, and no others. At Ok the tiles are adopted, and their nodes
    /// are dropped.
    ///
    /// Errors, whichever comes first: `Failed`; `BadTile`, exactly if the file ends before the end
    /// of a tile or has other hashes there, with the first such tile. Then all but the frames and
    /// these nodes is as it was. It takes no memory, and frees that of the nodes that it drops,
    /// where smaller blocks can be had; the spare leaves keep their capacity.
    pub fn adopt(&mut self, size: u64) -> Result<(), TileError>
        requires multiple { size % 256 ≡ 0 }
        requires within { size ≤ tiles_count self.old }
        ensures leaves { HasSameLeaves (tiles_filled_to size self.old) self.old self.new }
        ensures only_reads { OnlyReads T.Disk (tiles_disk self.old) (tiles_disk self.new) }
        ensures spare { tiles_spare self.new ≡ tiles_spare self.old }
        ensures adopted { OnOk result (TilesAreAdopted size self.old self.new) }
        ensures refused { IfErr result (TilesAreNotAdopted size self.old self.new) }
    {
        if size <= self.adopted {
            return Ok(());
        }
        self.compare(size)?;
        self.rows.forget(size);
        self.adopted = size;
        self.stored = self.stored.max(size);
        Ok(())
    }

    // Whether the file has the new tiles of so many leaves, whose nodes are made first.
    fn compare(&mut self, size: u64) -> Result<(), TileError>
        requires multiple { size % 256 ≡ 0 }
        requires within { size ≤ tiles_count self.old }
        requires above { tiles_adopted self.old < size }
        ensures stays { TilesStay self.old self.new }
        ensures stands { OnOk result (IfSome (T.contents (tiles_disk self.old)) (λ bytes.
            IfSome (tiles_leaves self.old) (λ leaves. (level place : ℕ)
            → IsNewTile (tiles_adopted self.old) size level place
            → StandsIn H.hash leaves bytes level place))) }
        ensures filled { tiles_filled self.new ≡ tiles_filled_to size self.old }
        ensures reach { OnOk result (tiles_end size ≤ T.known (tiles_disk self.new)) }
        ensures fine { OnOk result (T.faults (tiles_disk self.new)
            ≡ T.faults (tiles_disk self.old)) }
        ensures cause { IfErr result (HasCauseOf self.old (tiles_disk self.new) size) }
        ensures begins { IfErr result (BeginsWithin (tiles_adopted self.old) size
            (T.known (tiles_disk self.new))) }
    {
        self.rows.fill::<H>(size);
        let (from, to) = (count_tiles(self.adopted), count_tiles(size));
        check::<H, T>(&mut self.disk, &mut self.pool, &self.rows, from, to)
    }

    /// Reads back each tile that the first `size` leaves fill and that is not adopted yet, as
    /// [`Tiles::adopt`] does, and adopts them. If the file doesn't have one of them, the tiles are
    /// written from this one on instead, and none is adopted. All is made durable. At any time a
    /// crash leaves what it might have left before, but for what follows the start of that tile.
    /// `Failed` comes only if the device's count of failures rose. It takes no memory.
    pub fn renew(&mut self, size: u64) -> Result<(), Failed>
        requires multiple { size % 256 ≡ 0 }
        requires within { size ≤ tiles_count self.old }
        ensures leaves { HasSameLeaves (tiles_filled_to size self.old) self.old self.new }
        ensures spare { tiles_spare self.new ≡ tiles_spare self.old }
        ensures renews { RenewsTiles size self.old self.new }
        ensures renewed { OnOk result (TilesAreRenewed size self.old self.new) }
        ensures cause { HasCause (T.faults (tiles_disk self.old)) (T.faults (tiles_disk self.new))
            result }
    {
        match self.adopt(size) {
            Ok(()) => self.sync_file(),
            Err(TileError::BadTile { level, place }) => self.rewrite(
                TileKey { level, place },
                size,
            ),
            Err(TileError::Failed) => Err(Failed),
        }
    }

    // Makes durable what is there.
    fn sync_file(&mut self) -> Result<(), Failed>
        ensures stays { TilesStay self.old self.new }
        ensures spare { tiles_spare self.new ≡ tiles_spare self.old }
        ensures filled { tiles_filled self.new ≡ tiles_filled self.old }
        ensures leaves { tiles_leaves self.new ≡ tiles_leaves self.old }
        ensures durable { OnOk result (IfSome (T.contents (tiles_disk self.new))
            (λ b. Only b (T.may_leave (tiles_disk self.new)))) }
        ensures cause { HasCause (T.faults (tiles_disk self.old)) (T.faults (tiles_disk self.new))
            result }
    {
        make_durable(&mut self.disk)
    }

    // Writes the tiles of so many leaves from a bad one on.
    fn rewrite(&mut self, key: TileKey, size: u64) -> Result<(), Failed>
        requires within { size ≤ tiles_count self.old }
        requires new { IsNewTile (tiles_adopted self.old) size key.level key.place }
        requires place { tile_at key.level key.place ≤ T.known (tiles_disk self.old) }
        requires bad { IfSome (T.contents (tiles_disk self.old)) (λ bytes.
            IfSome (tiles_leaves self.old) (λ leaves. IsFirstBad H.hash leaves bytes
            (tiles_adopted self.old) size key.level key.place)) }
        ensures leaves { HasSameLeaves (tiles_filled_to size self.old) self.old self.new }
        ensures spare { tiles_spare self.new ≡ tiles_spare self.old }
        ensures any_time { LeavesOnly T.Disk (tiles_disk self.old) (tiles_disk self.new)
            (IsCrashStateAfter T.Disk (tiles_disk self.old) (tile_at key.level key.place)) }
        ensures renewed { OnOk result (TilesAreRenewed size self.old self.new) }
        ensures cause { HasCause (T.faults (tiles_disk self.old)) (T.faults (tiles_disk self.new))
            result }
    {
        self.write_from(number_of(key), size)?;
        self.stored = self.stored.max(size);
        Ok(())
    }

    /// The device, for another use.
    pub fn into_disk(self) -> T
        ensures { result ≡ tiles_disk self }
    {
        let Tiles {
            disk,
            pool: _,
            rows: _,
            inside: _,
            adopted: _,
            stored: _,
            function: _,
        } = self;
        disk
    }
}

impl<H: TreeHash, T: Disk> Nodes for Tiles<H, T> {
    ghost use Rattle.tile_store.specs.Laws.{counted-tiles, stay-on, stay-same};
    ghost use Rattle.tile_store.specs.Store.{TilesStay, tiles_count, tiles_disk, tiles_leaves};

    type H = H;

    ghost leaves = { λ t. tiles_leaves t };

    ghost count = { λ t. tiles_count t };

    ghost faults = { λ t. T.Disk.faults (tiles_disk t) };

    ghost stays = { λ old new. TilesStay old new };

    ghost counted = { λ t. counted-tiles t };

    ghost stays_before = { λ t. stay-same t (T.Disk.only_now (tiles_disk t)) };

    ghost stays_on = { λ a b c first second. stay-on a b c first second };

    fn size(&self) -> u64 {
        self.rows.count()
    }

    fn node(&mut self, level: u32, place: u64) -> Result<[u8; 32], Failed> {
        self.tile_node(level, place)
    }
}
