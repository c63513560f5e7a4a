//! A log as a state machine over its journal.

ghost use Rattle.std.specs.Prelude.{◌≡◌, ◌<◌, ◌+◌, ◌^◌, [], ◌∷◌, true, false, Some, None};
ghost use Rattle.std.specs.Prelude.{option_map, is_some, length, IfOk, IfErr, IsOk, OnOk, OnErr};
ghost use Rattle.std.specs.Prelude.{MatchResult};
ghost use Rattle.disk_core.specs.Times.{OnlyReads};
ghost use Rattle.mtc_io.specs.Counts.{Rose};
ghost use Rattle.state_journal.specs.Steps.{BeginsMachine, IsLeftBy, IsOutOfMemory, TakesRecord};
ghost use Rattle.tile_store.specs.Store.{tiles_disk, tiles_stored};
ghost use Rattle.issuance_log.specs.Folds.{begun_log, begun_view, next_view, view_in, null_entry};
ghost use Rattle.issuance_log.specs.Items.{HaveTaken, items_leaves, items_offsets};
ghost use Rattle.issuance_log.specs.Items.{items_tiles};
ghost use Rattle.issuance_log.specs.Machine.{HasCapacityFor, HasNoTiles, TilesAreLeft};
ghost use Rattle.issuance_log.specs.Machine.{TilesAreRead, rest_of_seed};
ghost use Rattle.issuance_log.specs.ItemOffsets.{before_items};
ghost use Rattle.issuance_log.specs.Records.{added_items, item_in};
ghost use Rattle.issuance_log.specs.Results.{IsMemoryRefused, LogFinds, LogTakes};
ghost use Rattle.issuance_log.specs.Sound.{HasSoundNumbers};

use crate::error::RecordError;
use crate::items::{Items, NULL_ENTRY};
use crate::numbers::Numbers;
use crate::record::{read_batch, read_item};
use disk_core::Disk;
use frame_pool::Pool;
use state_journal::{Misfit, NotBegun, StateMachine};
use std::alloc::Global;
use tile_store::TileError;
use tree_core::TreeHash;

/// What the machine of a log is begun with in addition to its first record: the disk of its tiles,
/// and a pool of frames for them.
pub(crate) struct TileSeed<T> {
    pub(crate) disk: T,
    pub(crate) pool: Pool,
}

/// The disk of a log's tiles, and why they were not adopted, where they were not.
pub(crate) struct TileRest<T> {
    pub(crate) disk: T,
    pub(crate) refusal: Option<TileError>,
}

/// What the records of a journal make of a log: its numbers, and what it retains of its items. The
/// tiles of a size are adopted when its record is read, so that the nodes in them are let go at
/// once. Where one of them is bad, no more are adopted, and the records are read on, since a bad
/// record is reported first. Where their disk fails, the records are not read on.
///
/// Tiles that are stored are not read back. So a record that is appended calls no disk.
pub(crate) struct LogMachine<H: TreeHash, T: Disk> {
    pub(crate) numbers: Numbers,
    pub(crate) items: Items<H, T>,
    pub(crate) refusal: Option<TileError>,
}

// A drop in one step: a derived one is proved field by field wherever a value is dropped.
impl<H: TreeHash, T: Disk + Drop> Drop for LogMachine<H, T> {
    fn drop(self) {
        let LogMachine {
            numbers: _,
            items: _,
            refusal: _,
        } = self;
    }
}

// The numbers of the log that the first record begins, with the null entry.
fn begin_items<H: TreeHash, T: Disk>(
    alloc: Global,
    items: &mut Items<H, T>,
    body: &[u8],
) -> Result<Numbers, RecordError>
    requires { items_offsets items.old ≡ [] }
    ensures found { LogFinds (λ n. n.view) (option_map view_in (begun_log body.now)) result }
    ensures sound { IfOk result (λ n. HasSoundNumbers n.view) }
    ensures untiled { IfOk result (λ n. n.view.tiled ≡ 0) }
    ensures taken { OnOk result (HaveTaken H.hash ((null_entry, []) ∷ []) 0 items.old items.new) }
    ensures disk { tiles_disk (items_tiles items.new) ≡ tiles_disk (items_tiles items.old) }
{
    let numbers = Numbers::begin(alloc, body)?;
    items.add(0, &NULL_ENTRY)?;
    Ok(numbers)
}

// The disk of the tiles.
fn disk_under<H: TreeHash, T: Disk>(items: Items<H, T>) -> T
    ensures { result ≡ tiles_disk (items_tiles items) }
{
    let Items { offsets: _, nodes } = items;
    nodes.into_disk()
}

// A log that isn't begun.
fn not_begun<H: TreeHash, T: Disk>(items: Items<H, T>, why: Misfit) -> NotBegun<TileRest<T>, Misfit>
    ensures disk { result.rest.disk ≡ tiles_disk (items_tiles items) }
    ensures refusal { result.rest.refusal ≡ None }
    ensures why { result.why ≡ why }
{
    NotBegun {
        rest: TileRest {
            disk: disk_under(items),
            refusal: None,
        },
        why,
    }
}

// From the commit byte of a record up to the item in an Entry: that byte, four bytes of length, and
// the tag. Up to the first in a Batch there are two more, of how many items it has.
const BEFORE_ITEM: u64 = 6;

const BEFORE_ITEMS: u64 = 8;

// Takes one record more that is no Entry, whose commit byte stands at an offset. A refusal leaves
// all as it was.
fn take_no_item<H: TreeHash, T: Disk>(
    numbers: &mut Numbers,
    items: &mut Items<H, T>,
    place: u64,
    body: &[u8],
) -> Result<(), RecordError>
    requires other { item_in body.now ≡ None }
    requires counted { length (items_offsets items.old) ≡ numbers.old.view.size }
    requires fits { place + 5 + length body.now < 2 ^ 64 }
    ensures view { LogTakes (next_view H.hash numbers.old.view body.now) numbers.old.view result
        numbers.new.view }
    ensures taken { OnOk result (HaveTaken H.hash (added_items body.now)
        (place + before_items body.now) items.old items.new) }
    ensures disk { tiles_disk (items_tiles items.new) ≡ tiles_disk (items_tiles items.old) }
    ensures stored { tiles_stored (items_tiles items.new) ≡ tiles_stored (items_tiles items.old) }
    ensures capacity { HasCapacityFor numbers.old items.old body.now → IsMemoryRefused result → ⊥ }
{
    match read_batch(body) {
        Ok((count, list)) => {
            if !numbers.takes_all::<H>(list) {
                return Err(RecordError::Unfit);
            }
            items.reserve(count as usize)?;
            items.push_all(place + BEFORE_ITEMS, list);
            numbers.add_items(count);
            Ok(())
        }
        Err(RecordError::Unfit) => numbers.take_other::<H>(body),
        Err(RecordError::Memory) => Err(RecordError::Memory),
    }
}

// Takes one record more, whose commit byte stands at an offset. A refusal leaves all as it was.
fn take_record<H: TreeHash, T: Disk>(
    numbers: &mut Numbers,
    items: &mut Items<H, T>,
    place: u64,
    body: &[u8],
) -> Result<(), RecordError>
    requires counted { length (items_offsets items.old) ≡ numbers.old.view.size }
    requires fits { place + 5 + length body.now < 2 ^ 64 }
    ensures view { LogTakes (next_view H.hash numbers.old.view body.now) numbers.old.view result
        numbers.new.view }
    ensures taken { OnOk result (HaveTaken H.hash (added_items body.now)
        (place + before_items body.now) items.old items.new) }
    ensures disk { tiles_disk (items_tiles items.new) ≡ tiles_disk (items_tiles items.old) }
    ensures stored { tiles_stored (items_tiles items.new) ≡ tiles_stored (items_tiles items.old) }
    ensures capacity { HasCapacityFor numbers.old items.old body.now → IsMemoryRefused result → ⊥ }
{
    match read_item(body) {
        Ok((entry, key)) => {
            if !numbers.takes::<H>(entry, key) {
                return Err(RecordError::Unfit);
            }
            items.add(place + BEFORE_ITEM, entry)?;
            numbers.add_item();
            Ok(())
        }
        Err(RecordError::Unfit) => take_no_item::<H, T>(numbers, items, place, body),
        Err(RecordError::Memory) => Err(RecordError::Memory),
    }
}

impl<H: TreeHash, T: Disk> LogMachine<H, T> {
    ghost use Rattle.issuance_log.specs.Machine.{HasRecordCapacity, HasStored, IsKeptWithin};
    ghost use Rattle.issuance_log.specs.Machine.{IsUsable, KeepsRecords, machine_view, rest_in};
    ghost use Rattle.issuance_log.specs.declared.machine.TileRest.{TileRest};

    // The machine that the first record begins.
    fn begin_with(
        alloc: Global,
        seed: TileSeed<T>,
        body: &[u8],
    ) -> Result<LogMachine<H, T>, NotBegun<TileRest<T>, Misfit>>
        requires { HasNoTiles seed }
        ensures begins { BeginsMachine begun_view (λ it. machine_view it)
            (λ it list. KeepsRecords it list) body.now result }
        ensures within { IfOk result (λ it. IsKeptWithin it (21 + length body.now)) }
        ensures rest { (was : TileRest T) → TilesAreRead T.Disk was (rest_of_seed seed)
            → MatchResult result (λ it. TilesAreRead T.Disk was (rest_in it))
            (λ e. IsLeftBy (TilesAreRead T.Disk) (TilesAreLeft T.Disk) was e.rest e.why) }
    {
        let TileSeed { disk, pool } = seed;
        let mut items = Items::new(alloc, disk, pool);
        match begin_items(alloc, &mut items, body) {
            Ok(numbers) => Ok(LogMachine {
                numbers,
                items,
                refusal: None,
            }),
            Err(RecordError::Unfit) => Err(not_begun(items, Misfit::Unfit)),
            Err(RecordError::Memory) => Err(not_begun(items, Misfit::Memory)),
        }
    }

    // Takes one record more, whose commit byte stands at an offset, and adopts the tiles of its
    // size.
    fn take_next(&mut self, place: u64, body: &[u8]) -> Result<(), Misfit>
        requires within { IsKeptWithin self.old place }
        requires fits { place + 5 + length body.now < 2 ^ 64 }
        ensures takes { TakesRecord (next_view H.hash) (λ it. machine_view it)
            (λ it list. KeepsRecords it list) place body.now self.old self.new result }
        ensures within { OnOk result (IsKeptWithin self.new (place + 5 + length body.now)) }
        ensures capacity { HasRecordCapacity self.old body.now → IsOutOfMemory result → ⊥ }
        ensures rest { (was : TileRest T) → TilesAreRead T.Disk was (rest_in self.old)
            → MatchResult result (λ _. TilesAreRead T.Disk was (rest_in self.new))
            (λ why. IsLeftBy (TilesAreRead T.Disk) (TilesAreLeft T.Disk) was (rest_in self.new)
            why) }
        ensures still { HasRecordCapacity self.old body.now
            → rest_in self.new ≡ rest_in self.old }
    {
        match take_record::<H, T>(&mut self.numbers, &mut self.items, place, body) {
            Ok(()) => self.adopt_new(),
            Err(RecordError::Unfit) => Err(Misfit::Unfit),
            Err(RecordError::Memory) => Err(Misfit::Memory),
        }
    }

    // The tiles of the last size are stored, or tiles were refused.
    fn has_stored(&self) -> bool
        ensures yes { result ≡ true → HasStored self.now }
        ensures no { result ≡ false → (is_some self.now.refusal ≡ false)
            × (tiles_stored (items_tiles self.now.items) < (machine_view self.now).tiled) }
        ensures sound { HasSoundNumbers (machine_view self.now) }
    {
        let size = self.numbers.tiled();
        self.refusal.is_some() || size <= self.items.nodes.stored()
    }

    // Adopts the tiles of the last size that are not stored yet, unless tiles were refused before.
    // A refusal is retained. Where their disk failed, the answer is that the record can't be taken.
    fn adopt_new(&mut self) -> Result<(), Misfit>
        requires { length (items_offsets self.old.items) ≡ (machine_view self.old).size }
        ensures view { machine_view self.new ≡ machine_view self.old }
        ensures sound { HasSoundNumbers (machine_view self.new) }
        ensures offsets { items_offsets self.new.items ≡ items_offsets self.old.items }
        ensures leaves { items_leaves self.new.items ≡ items_leaves self.old.items }
        ensures stored { OnOk result (HasStored self.new) }
        ensures only_reads { OnlyReads T.Disk (tiles_disk (items_tiles self.old.items))
            (tiles_disk (items_tiles self.new.items)) }
        ensures fine { OnOk result (T.faults (tiles_disk (items_tiles self.new.items))
            ≡ T.faults (tiles_disk (items_tiles self.old.items))) }
        ensures usable { OnOk result (IsUsable self.old.refusal → IsUsable self.new.refusal) }
        ensures failed { OnErr result (self.new.refusal ≡ Some TileError.Failed) }
        ensures cause { OnErr result (Rose (T.faults (tiles_disk (items_tiles self.old.items)))
            (T.faults (tiles_disk (items_tiles self.new.items)))) }
        ensures memory { IfErr result (λ why. why ≡ Misfit.Memory) }
        ensures still { HasStored self.old
            → (rest_in self.new ≡ rest_in self.old) × IsOk result }
    {
        if self.has_stored() {
            return Ok(());
        }
        let size = self.numbers.tiled();
        match self.items.nodes.adopt(size) {
            Ok(()) => Ok(()),
            Err(TileError::Failed) => {
                self.refusal = Some(TileError::Failed);
                Err(Misfit::Memory)
            }
            Err(TileError::BadTile { level, place }) => {
                self.refusal = Some(TileError::BadTile { level, place });
                Ok(())
            }
        }
    }

    /// The disk of the tiles.
    pub(crate) fn into_disk(self) -> T
        ensures { result ≡ tiles_disk (items_tiles self.items) }
    {
        let LogMachine {
            numbers: _,
            items,
            refusal: _,
        } = self;
        disk_under(items)
    }
}

impl<H: TreeHash, T: Disk> StateMachine for LogMachine<H, T> {
    ghost use Rattle.issuance_log.specs.Folds.{LogView};
    ghost use Rattle.issuance_log.specs.Machine.{HasRecordCapacity, IsKeptWithin, KeepsRecords};
    ghost use Rattle.issuance_log.specs.Machine.{machine_view, rest_in};

    type Seed = TileSeed<T>;

    type Rest = TileRest<T>;

    ghost State = { LogView };

    ghost begins = { begun_view };

    ghost takes = { next_view H.hash };

    ghost state = { λ it. machine_view it };

    ghost Keeps = { λ it list. KeepsRecords it list };

    ghost Within = { λ it commit_offset. IsKeptWithin it commit_offset };

    ghost HasCapacity = { λ it body. HasRecordCapacity it body };

    ghost IsBlank = { λ seed. HasNoTiles seed };

    ghost rest_of = { λ seed. rest_of_seed seed };

    ghost rest = { λ it. rest_in it };

    ghost Becomes = { λ was now. TilesAreRead T.Disk was now };

    ghost Stops = { λ was now. TilesAreLeft T.Disk was now };

    fn begin(
        alloc: Global,
        seed: TileSeed<T>,
        body: &[u8],
    ) -> Result<Self, NotBegun<TileRest<T>, Misfit>> {
        LogMachine::begin_with(alloc, seed, body)
    }

    fn take(&mut self, place: u64, body: &[u8]) -> Result<(), Misfit> {
        self.take_next(place, body)
    }

    fn return_rest(seed: TileSeed<T>) -> TileRest<T> {
        let TileSeed { disk, pool: _ } = seed;
        TileRest {
            disk,
            refusal: None,
        }
    }

    fn into_rest(self) -> TileRest<T> {
        let refusal = self.refusal;
        TileRest {
            disk: self.into_disk(),
            refusal,
        }
    }

    ghost becomes_stops = { λ was now is. record {
      only_reads = is.only_reads;
      fine = λ usable. is.fine;
      failed = λ failed. absurd (is.usable failed);
    } };
}
