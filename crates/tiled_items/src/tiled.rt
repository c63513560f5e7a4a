//! A journal of items that is open for more of them.

ghost use Rattle.std.specs.Prelude.{◌≡◌, ℕ, ◌+◌, ◌<◌, ◌≤◌, ◌^◌, List, length, Some, IfOk, IfErr};
ghost use Rattle.std.specs.Prelude.{IfSome, IsTrue, OnErr, OnOk, [], is_some, false};
ghost use Rattle.std.specs.Prelude.{slice_index_or};
ghost use Rattle.std.proofs.Props.{props};
ghost use Rattle.disk_core.specs.Times.{OnlyReads};
ghost use Rattle.frame_pool.specs.Frames.{HoldsKey};
ghost use Rattle.frame_pool.specs.declared.key.TileKey.{TileKey as Key};
ghost use Rattle.issuance_log.specs.Records.{tiles_record};
ghost use Rattle.issuance_log.specs.Refusals.{append_refusal};
ghost use Rattle.journal_core.specs.Words.{disk_of, end_of};
ghost use Rattle.tile_store.specs.Store.{tiles_stored};
ghost use Rattle.tiled_items.specs.Answers.{KeepsToTiledJournal, RecordKeepsTo};
ghost use Rattle.tiled_items.specs.Blocks.{PlacesAreBelow, blocks_of, full_of};
ghost use Rattle.tiled_items.specs.Durable.{IsDurableTiled, IsDurableTiled-prop};
ghost use Rattle.tiled_items.specs.Held.{held_count, held_leaves, held_places, held_tiles};
ghost use Rattle.tiled_items.specs.Openings.{tiled_open_refusal};
ghost use Rattle.tiled_items.specs.Views.{HasTiledNumbers};

use crate::error::{ItemError, TiledError, TiledOpenError};
use crate::held::TILE;
use crate::machine::{TileRest, TileSeed, TiledMachine};
use crate::reading::read_item;
use crate::record::tiles_record;
use crate::rules::ItemRules;
use disk_core::Disk;
use frame_pool::Pool;
use journal_core::{Journal, OpenError};
use mtc_io::Bytes;
use state_journal::{StateOpenError, StateRefused, append_to, open_state};
use std::alloc::Global;
use tile_store::TileError;
use tree_core::TreeHash;

/// A refused opening returns both disks.
#[derive(Drop)]
pub struct TiledRefused<D, T> {
    pub disk: D,
    pub tiles: T,
    pub why: TiledOpenError,
}

/// The items of a journal, each an entry and the key beside it, and the nodes of the tree over the
/// entries, of which those in full tiles that were stored stand on a second disk.
///
/// In memory are the numbers that the rules keep, a place for each block of 256 items, and the
/// nodes that are in no adopted tile.
pub struct TiledItems<R: ItemRules, H: TreeHash, D: Disk, T: Disk> {
    alloc: Global,
    pub(crate) journal: Journal<D>,
    pub(crate) machine: TiledMachine<R, H, T>,
    ghost counted: { held_count machine.held
        ≡ R.ItemRules.size (R.ItemRules.view machine.numbers) },
    ghost begun: { length (held_places machine.held)
        ≡ blocks_of (R.ItemRules.size (R.ItemRules.view machine.numbers)) },
    ghost below: { PlacesAreBelow (held_places machine.held) (end_of journal) },
    ghost adopted: { is_some machine.refusal ≡ false },
    ghost stored: { R.ItemRules.tiled (R.ItemRules.view machine.numbers)
        ≤ tiles_stored (held_tiles machine.held) },
    ghost durable: { (b : List ℕ) → D.Disk.contents (disk_of journal) ≡ Some b → IsDurableTiled
        R.ItemRules H.TreeHash.hash (R.ItemRules.view machine.numbers)
        (held_places machine.held) (held_leaves machine.held)
        (end_of journal) b } by { Prim.hlevel (
          props,
          IsDurableTiled-prop,
        ) },
}

// Why a journal isn't opened, by why its records aren't read, and why tiles were not adopted: where
// a call of their disk failed, the records were read no further.
fn open_refusal(why: StateOpenError, refusal: Option<TileError>) -> TiledOpenError
    ensures { result ≡ tiled_open_refusal why refusal }
{
    match (why, refusal) {
        (StateOpenError::BadRecord(number), _) => TiledOpenError::BadRecord(number),
        (StateOpenError::Open(OpenError::Memory), Some(TileError::Failed)) => {
            TiledOpenError::Tile(TileError::Failed)
        }
        (StateOpenError::Open(why), _) => TiledOpenError::Open(why),
    }
}

// A journal whose records are not read.
fn not_opened<D, T>(refused: StateRefused<D, TileRest<T>>) -> TiledRefused<D, T>
    ensures disk { result.disk ≡ refused.disk }
    ensures tiles { result.tiles ≡ refused.rest.disk }
    ensures why { result.why ≡ tiled_open_refusal refused.why refused.rest.refusal }
{
    let StateRefused { disk, rest, why } = refused;
    let TileRest {
        disk: tiles,
        refusal,
    } = rest;
    TiledRefused {
        disk,
        tiles,
        why: open_refusal(why, refusal),
    }
}

// A drop in one step: a derived one is proved field by field wherever a value is dropped.
impl<R: ItemRules, H: TreeHash, D: Disk + Drop, T: Disk + Drop> Drop for TiledItems<R, H, D, T> {
    fn drop(self) {
        let TiledItems {
            alloc: _,
            journal: _,
            machine: _,
        } = self;
    }
}

impl<R: ItemRules, H: TreeHash, D: Disk, T: Disk> TiledItems<R, H, D, T> {
    ghost use Rattle.tiled_items.specs.Opened.{TiledIsNotOpened, TiledIsOpened};
    ghost use Rattle.tiled_items.specs.Machine.{HasTiledCapacity};
    ghost use Rattle.tiled_items.specs.Words.{TiledAppends, tiled_broken, tiled_disk, tiled_end};
    ghost use Rattle.tiled_items.specs.Words.{tiled_items, tiled_records, tiled_tiles_disk};
    ghost use Rattle.tiled_items.specs.Words.{tiled_view};
    ghost use Rattle.tiled_items.specs.Tiling.{ItemTilesStandAfter, KeepsItemTiles};

    /// Opens a journal of items, with its tiles on a second disk and a pool whose frames hold no
    /// tile. The records are read and tested one by one. At each that has a size of tiles these are
    /// read back and compared, and the nodes in them are let go; but where one of them is bad, no
    /// more are compared before the last record.
    ///
    /// Errors: what [`open_state`] refuses, where `BadRecord` comes at the first record that breaks
    /// the rules, or where there is none; where the disk of the tiles fails, `Tile(Failed)` at
    /// once; and after the last record the first bad tile. The disks are returned, and were only
    /// read.
    pub fn open(
        alloc: Global,
        disk: D,
        tiles: T,
        pool: Pool,
    ) -> Result<TiledItems<R, H, D, T>, TiledRefused<D, T>>
        requires { (slot : ℕ) (key : Key) → HoldsKey pool slot key → ⊥ }
        ensures opened { IfOk result (TiledIsOpened disk tiles) }
        ensures refused { IfErr result (λ e. TiledIsNotOpened R.ItemRules D.Disk T.Disk H.hash
            disk e.disk tiles e.tiles e.why) }
    {
        let seed = TileSeed { disk: tiles, pool };
        let (journal, mut machine) = match open_state::<TiledMachine<R, H, T>, D>(
            alloc, disk, seed,
        ) {
            Ok(opened) => opened,
            Err(refused) => return Err(not_opened(refused)),
        };
        let size = machine.numbers.tiled();
        match machine.held.nodes.adopt(size) {
            Ok(()) => {
                machine.refusal = None;
                Ok(TiledItems {
                    alloc,
                    journal,
                    machine,
                })
            }
            Err(why) => Err(TiledRefused {
                disk: journal.into_disk(),
                tiles: machine.into_disk(),
                why: TiledOpenError::Tile(why),
            }),
        }
    }

    /// Appends a record that the rules allow, with so many items, and then the machine takes it. At
    /// Ok a crash leaves the records with it. At any time of the call it leaves the old records, or
    /// these and the new one, unless an append had failed before. The disk of the tiles has no
    /// call.
    ///
    /// Errors, in the order of the tests: `Memory`; and what [`Journal::append`] refuses. After a
    /// refusal all is shown as it was. After `Append(Failed)` each further call that gets the
    /// memory answers `Append(Broken)`.
    pub fn append(&mut self, body: &[u8], count: u64) -> Result<(), TiledError>
        requires some { 1 ≤ length body.now }
        requires short { length body.now ≤ 131072 }
        requires allowed { IsTrue (is_some (R.takes H.hash (tiled_view self.old) body.now)) }
        requires count { count ≡ length (R.added body.now) }
        requires few { R.size (tiled_view self.old) + count < 2 ^ 32 }
        requires untiled { (next : R.View)
            → R.takes H.hash (tiled_view self.old) body.now ≡ Some next
            → R.tiled next ≡ R.tiled (tiled_view self.old) }
        ensures appends { (next : R.View)
            → R.takes H.hash (tiled_view self.old) body.now ≡ Some next
            → TiledAppends body.now next self.old self.new result }
        ensures answer { RecordKeepsTo
            (append_refusal (tiled_broken self.old) (tiled_end self.old) body.now) result }
        ensures tiles { tiled_tiles_disk self.new ≡ tiled_tiles_disk self.old }
    {
        self.machine.reserve(body, count)?;
        self.append_record(body, ())
    }

    // Appends a record that the rules allow and that needs no memory, and answers `answer`. No disk
    // but the journal's is called.
    fn append_record<X: Drop>(&mut self, body: &[u8], answer: X) -> Result<X, TiledError>
        requires some { 1 ≤ length body.now }
        requires short { length body.now ≤ 131072 }
        requires allowed { IsTrue (is_some (R.takes H.hash (tiled_view self.old) body.now)) }
        requires capacity { HasTiledCapacity R.ItemRules self.old.machine body.now }
        ensures appends { (next : R.View)
            → R.takes H.hash (tiled_view self.old) body.now ≡ Some next
            → TiledAppends body.now next self.old self.new result }
        ensures answer { IfOk result (λ x. x ≡ answer) }
        ensures refusal { KeepsToTiledJournal
            (append_refusal (tiled_broken self.old) (tiled_end self.old) body.now) result }
        ensures tiles { tiled_tiles_disk self.new ≡ tiled_tiles_disk self.old }
    {
        append_to(&mut self.journal, &mut self.machine, body)?;
        Ok(answer)
    }

    /// Stores the tiles that the entries fill, makes them durable, and then appends the greatest
    /// multiple of 256 that isn't above the size, which it answers. The next opening adopts them.
    /// At any time a crash leaves the tiles that it would have left before. If it leaves the new
    /// record it leaves all tiles of the new size, unless an append had failed before.
    ///
    /// Errors, in the order of the tests: `NothingNew` where this number isn't above the last size
    /// of tiles; `Memory`; `Failed` of the disk of the tiles; and what [`Journal::append`] refuses.
    pub fn tile(&mut self) -> Result<u64, TiledError>
        ensures appends { (next : R.View) → R.takes H.hash (tiled_view self.old)
            (tiles_record (full_of (R.size (tiled_view self.old)))) ≡ Some next
            → TiledAppends (tiles_record (full_of (R.size (tiled_view self.old)))) next self.old
            self.new result }
        ensures size { IfOk result (λ n. n ≡ full_of (R.size (tiled_view self.old))) }
        ensures keeps { KeepsItemTiles (R.tiled (tiled_view self.old)) self.old self.new }
        ensures following { ItemTilesStandAfter
            (tiles_record (full_of (R.size (tiled_view self.old))))
            (full_of (R.size (tiled_view self.old))) self.old self.new }
    {
        let size = self.machine.numbers.size() / TILE * TILE;
        if size <= self.machine.numbers.tiled() {
            return Err(TiledError::NothingNew);
        }
        let body = tiles_record(self.alloc, size)?;
        self.machine.held.nodes.store(size)?;
        self.append_record(body.as_slice(), size)
    }

    /// The entry at an index and the key beside it, instead of what the two byte strings held. It
    /// is read back from the journal, from the first record of its block on.
    ///
    /// Errors: `Memory`, `Failed` and `Misread`, whichever comes first; the last only over a disk
    /// whose bytes the model doesn't know. After a refusal both byte strings are empty. The call
    /// only reads the journal's disk, and leaves that of the tiles alone.
    pub fn item(&mut self, index: u64, entry: &mut Bytes, spki: &mut Bytes) -> Result<(), ItemError>
        requires { index < R.size (tiled_view self.old) }
        ensures item { OnOk result (IfSome (tiled_items self.old) (λ items.
            (entry.new, spki.new) ≡ slice_index_or items index ([], []))) }
        ensures empty { OnErr result ((entry.new ≡ []) × (spki.new ≡ [])) }
        ensures view { tiled_view self.new ≡ tiled_view self.old }
        ensures records { tiled_records self.new ≡ tiled_records self.old }
        ensures end { tiled_end self.new ≡ tiled_end self.old }
        ensures only_reads { OnlyReads D.Disk (tiled_disk self.old) (tiled_disk self.new) }
        ensures tiles { tiled_tiles_disk self.new ≡ tiled_tiles_disk self.old }
    {
        entry.truncate(0);
        spki.truncate(0);
        let start = self.machine.held.places[(index / TILE) as usize];
        if start.first > index {
            return Err(ItemError::Misread);
        }
        read_item::<R, D>(self.alloc, &mut self.journal, start, index, entry, spki)
    }

    /// How many items there are.
    pub fn size(&self) -> u64
        ensures value { result ≡ R.size (tiled_view self.now) }
        ensures sound { HasTiledNumbers (R.size (tiled_view self.now))
            (R.tiled (tiled_view self.now)) }
    {
        self.machine.numbers.size()
    }

    /// The last size of the tiles, 0 where there is none.
    pub fn tiled(&self) -> u64
        ensures { result ≡ R.tiled (tiled_view self.now) }
    {
        self.machine.numbers.tiled()
    }

    /// The numbers that the rules keep.
    pub fn numbers(&self) -> &R
        ensures { R.view result.now ≡ tiled_view self.now }
    {
        &self.machine.numbers
    }

    /// The disk of the journal, and that of the tiles.
    pub fn into_disks(self) -> (D, T)
        ensures journal { result.0 ≡ tiled_disk self }
        ensures tiles { result.1 ≡ tiled_tiles_disk self }
    {
        let TiledItems {
            alloc: _,
            journal,
            machine,
        } = self;
        (journal.into_disk(), machine.into_disk())
    }
}
