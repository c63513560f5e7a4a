//! A journal of items as a state machine, whatever its rules.

ghost use Rattle.std.specs.Prelude.{◌≡◌, ◌<◌, ◌+◌, ◌^◌, false, true, None, Some, length, is_some};
ghost use Rattle.std.specs.Prelude.{IfErr, IsOk, MatchResult, IfOk, OnErr, OnOk};
ghost use Rattle.disk_core.specs.Times.{OnlyReads};
ghost use Rattle.mtc_io.specs.Counts.{Rose};
ghost use Rattle.state_journal.specs.Steps.{BeginsMachine, IsLeftBy, IsOutOfMemory, TakesRecord};
ghost use Rattle.tile_store.specs.Store.{tiles_disk, tiles_stored};
ghost use Rattle.tiled_items.specs.Held.{HasItemCapacity, HasPushedItems, held_count, held_leaves};
ghost use Rattle.tiled_items.specs.Held.{held_places, held_tiles};
ghost use Rattle.issuance_log.specs.Machine.{IsUsable};
ghost use Rattle.tiled_items.specs.Machine.{SeedIsBlank, TileDiskIsLeft, TileDiskIsRead};
ghost use Rattle.tiled_items.specs.Machine.{rest_of_tile_seed};
ghost use Rattle.tiled_items.specs.Views.{BeginsRules, TakesRules};

use crate::held::HeldItems;
use crate::rules::ItemRules;
use disk_core::Disk;
use frame_pool::Pool;
use mtc_io::Memory;
use state_journal::{Misfit, NotBegun, StateMachine};
use std::alloc::Global;
use tile_store::TileError;
use tree_core::TreeHash;

/// What the machine is begun with in addition to its first record: the disk of its tiles, and a
/// pool of frames for them.
pub struct TileSeed<T> {
    pub disk: T,
    pub pool: Pool,
}

/// The disk of the tiles, and why they were not adopted, where they were not.
pub struct TileRest<T> {
    pub disk: T,
    pub refusal: Option<TileError>,
}

/// What the records of a journal of items make: the numbers that the rules keep, and what is held
/// of the items. The tiles of a size are adopted when its record is read, so that the nodes in them
/// are let go at once. Where one of them is bad, no more are adopted, and the records are read on,
/// since a bad record is reported first. Where their disk fails, the records are not read on.
///
/// Tiles that are stored are not read back. So a record that is appended calls no disk.
pub struct TiledMachine<R, H: TreeHash, T: Disk> {
    pub(crate) numbers: R,
    pub(crate) held: HeldItems<H, T>,
    pub(crate) refusal: Option<TileError>,
}

// A drop in one step: a derived one is proved field by field wherever a value is dropped.
impl<R: Drop, H: TreeHash, T: Disk + Drop> Drop for TiledMachine<R, H, T> {
    fn drop(self) {
        let TiledMachine {
            numbers: _,
            held: _,
            refusal: _,
        } = self;
    }
}

// The numbers that the first record begins, with its items.
fn begin_items<R: ItemRules, H: TreeHash, T: Disk>(
    alloc: Global,
    held: &mut HeldItems<H, T>,
    body: &[u8],
) -> Result<R, Misfit>
    requires none { held_count held.old ≡ 0 }
    ensures found { BeginsRules R.begins R.view body.now result }
    ensures taken { OnOk result (HasPushedItems H.hash R.first 16 held.old held.new) }
    ensures disk { tiles_disk (held_tiles held.new) ≡ tiles_disk (held_tiles held.old) }
    ensures stored { tiles_stored (held_tiles held.new) ≡ tiles_stored (held_tiles held.old) }
{
    let numbers = R::begin(alloc, body)?;
    let items = R::first_items(body);
    let count = numbers.size();
    if held.reserve(0, count).is_err() {
        return Err(Misfit::Memory);
    }
    held.push_items(16, 0, count, items);
    Ok(numbers)
}

// The disk of the tiles.
fn disk_under<H: TreeHash, T: Disk>(held: HeldItems<H, T>) -> T
    ensures { result ≡ tiles_disk (held_tiles held) }
{
    let HeldItems { places: _, nodes } = held;
    nodes.into_disk()
}

// A machine that isn't begun.
fn not_begun<H: TreeHash, T: Disk>(
    held: HeldItems<H, T>,
    why: Misfit,
) -> NotBegun<TileRest<T>, Misfit>
    ensures disk { result.rest.disk ≡ tiles_disk (held_tiles held) }
    ensures refusal { result.rest.refusal ≡ None }
    ensures why { result.why ≡ why }
{
    NotBegun {
        rest: TileRest {
            disk: disk_under(held),
            refusal: None,
        },
        why,
    }
}

// Takes one record more, whose commit byte stands at an offset. What is held stays after a refusal.
fn take_record<R: ItemRules, H: TreeHash, T: Disk>(
    numbers: &mut R,
    held: &mut HeldItems<H, T>,
    place: u64,
    body: &[u8],
) -> Result<(), Misfit>
    requires { held_count held.old ≡ R.size (R.view numbers.old) }
    ensures view { TakesRules (R.takes H.hash) R.view body.now numbers.old numbers.new result }
    ensures taken { OnOk result
        (HasPushedItems H.hash (R.added body.now) place held.old held.new) }
    ensures disk { tiles_disk (held_tiles held.new) ≡ tiles_disk (held_tiles held.old) }
    ensures stored { tiles_stored (held_tiles held.new) ≡ tiles_stored (held_tiles held.old) }
    ensures capacity { R.HasCapacity numbers.old body.now
        → HasItemCapacity (held_count held.old) (length (R.added body.now)) held.old
        → IsOutOfMemory result → ⊥ }
{
    let first = numbers.size();
    match numbers.take::<H>(body) {
        Ok(items) => {
            let count = numbers.size() - first;
            if held.reserve(first, count).is_err() {
                return Err(Misfit::Memory);
            }
            held.push_items(place, first, count, items);
            Ok(())
        }
        Err(why) => Err(why),
    }
}

impl<R: ItemRules, H: TreeHash, T: Disk> TiledMachine<R, H, T> {
    ghost use Rattle.tiled_items.specs.Machine.{HasTiledCapacity, HasTilesStored, IsTiledWithin};
    ghost use Rattle.tiled_items.specs.Machine.{KeepsTiledItems, tiled_machine_view, tiled_rest};
    ghost use Rattle.tiled_items.specs.declared.machine.TileRest.{TileRest};

    // The machine that the first record begins.
    fn begin_with(
        alloc: Global,
        seed: TileSeed<T>,
        body: &[u8],
    ) -> Result<TiledMachine<R, H, T>, NotBegun<TileRest<T>, Misfit>>
        requires { SeedIsBlank seed }
        ensures begins { BeginsMachine R.begins (λ it. tiled_machine_view R.ItemRules it)
            (λ it list. KeepsTiledItems R.ItemRules it list) body.now result }
        ensures within { IfOk result (λ it. IsTiledWithin R.ItemRules it (21 + length body.now)) }
        ensures rest { (was : TileRest T) → TileDiskIsRead T.Disk was (rest_of_tile_seed seed)
            → MatchResult result (λ it. TileDiskIsRead T.Disk was (tiled_rest it))
            (λ e. IsLeftBy (TileDiskIsRead T.Disk) (TileDiskIsLeft T.Disk) was e.rest e.why) }
    {
        let TileSeed { disk, pool } = seed;
        let mut held = HeldItems::new(alloc, disk, pool);
        match begin_items::<R, H, T>(alloc, &mut held, body) {
            Ok(numbers) => Ok(TiledMachine {
                numbers,
                held,
                refusal: None,
            }),
            Err(Misfit::Unfit) => Err(not_begun(held, Misfit::Unfit)),
            Err(Misfit::Memory) => Err(not_begun(held, Misfit::Memory)),
        }
    }

    // Takes one record more, whose commit byte stands at an offset, and adopts the tiles of its
    // size.
    fn take_next(&mut self, place: u64, body: &[u8]) -> Result<(), Misfit>
        requires within { IsTiledWithin R.ItemRules self.old place }
        requires fits { place + 5 + length body.now < 2 ^ 64 }
        ensures takes { TakesRecord (R.takes H.hash) (λ it. tiled_machine_view R.ItemRules it)
            (λ it list. KeepsTiledItems R.ItemRules it list) place body.now self.old self.new
            result }
        ensures within { OnOk result
            (IsTiledWithin R.ItemRules self.new (place + 5 + length body.now)) }
        ensures capacity { HasTiledCapacity R.ItemRules self.old body.now
            → IsOutOfMemory result → ⊥ }
        ensures rest { (was : TileRest T) → TileDiskIsRead T.Disk was (tiled_rest self.old)
            → MatchResult result (λ _. TileDiskIsRead T.Disk was (tiled_rest self.new))
            (λ why. IsLeftBy (TileDiskIsRead T.Disk) (TileDiskIsLeft T.Disk) was
            (tiled_rest self.new) why) }
        ensures still { HasTiledCapacity R.ItemRules self.old body.now
            → tiled_rest self.new ≡ tiled_rest self.old }
    {
        match take_record::<R, H, T>(&mut self.numbers, &mut self.held, place, body) {
            Ok(()) => self.adopt_new(),
            Err(Misfit::Unfit) => Err(Misfit::Unfit),
            Err(Misfit::Memory) => Err(Misfit::Memory),
        }
    }

    /// Takes the memory that a record with so many items needs. All that is shown and held stays as
    /// it was.
    pub(crate) fn reserve(&mut self, body: &[u8], count: u64) -> Result<(), Memory>
        requires few { R.size (tiled_machine_view R.ItemRules self.old) + count < 2 ^ 32 }
        ensures numbers { OnOk result (R.HasCapacity self.new.numbers body.now) }
        ensures items { OnOk result (HasItemCapacity
            (R.size (tiled_machine_view R.ItemRules self.old)) count self.new.held) }
        ensures view { tiled_machine_view R.ItemRules self.new
            ≡ tiled_machine_view R.ItemRules self.old }
        ensures places { held_places self.new.held ≡ held_places self.old.held }
        ensures count { held_count self.new.held ≡ held_count self.old.held }
        ensures leaves { held_leaves self.new.held ≡ held_leaves self.old.held }
        ensures stored { tiles_stored (held_tiles self.new.held)
            ≡ tiles_stored (held_tiles self.old.held) }
        ensures rest { tiled_rest self.new ≡ tiled_rest self.old }
    {
        self.numbers.reserve(body)?;
        let first = self.numbers.size();
        self.held.reserve(first, count)
    }

    // The tiles of the last size are stored, or tiles were refused.
    fn has_stored(&self) -> bool
        ensures yes { result ≡ true → HasTilesStored R.ItemRules self.now }
        ensures no { result ≡ false → (is_some self.now.refusal ≡ false)
            × (tiles_stored (held_tiles self.now.held)
            < R.tiled (tiled_machine_view R.ItemRules self.now)) }
    {
        let size = self.numbers.tiled();
        self.refusal.is_some() || size <= self.held.nodes.stored()
    }

    // Adopts the tiles of the last size that are not stored yet, unless tiles were refused before.
    // A refusal is retained. Where their disk failed, the answer is that the record can't be taken.
    fn adopt_new(&mut self) -> Result<(), Misfit>
        requires { held_count self.old.held ≡ R.size (tiled_machine_view R.ItemRules self.old) }
        ensures numbers { self.new.numbers ≡ self.old.numbers }
        ensures places { held_places self.new.held ≡ held_places self.old.held }
        ensures count { held_count self.new.held ≡ held_count self.old.held }
        ensures leaves { held_leaves self.new.held ≡ held_leaves self.old.held }
        ensures stored { OnOk result (HasTilesStored R.ItemRules self.new) }
        ensures only_reads { OnlyReads T.Disk (tiles_disk (held_tiles self.old.held))
            (tiles_disk (held_tiles self.new.held)) }
        ensures fine { OnOk result (T.faults (tiles_disk (held_tiles self.new.held))
            ≡ T.faults (tiles_disk (held_tiles self.old.held))) }
        ensures usable { OnOk result (IsUsable self.old.refusal → IsUsable self.new.refusal) }
        ensures failed { OnErr result (self.new.refusal ≡ Some TileError.Failed) }
        ensures cause { OnErr result (Rose (T.faults (tiles_disk (held_tiles self.old.held)))
            (T.faults (tiles_disk (held_tiles self.new.held)))) }
        ensures memory { IfErr result (λ why. why ≡ Misfit.Memory) }
        ensures still { HasTilesStored R.ItemRules self.old
            → (tiled_rest self.new ≡ tiled_rest self.old) × IsOk result }
    {
        if self.has_stored() {
            return Ok(());
        }
        let size = self.numbers.tiled();
        match self.held.nodes.adopt(size) {
            Ok(()) => Ok(()),
            Err(TileError::Failed) => {
                self.refusal = Some(TileError::Failed);
                Err(Misfit::Memory)
            }
            Err(TileError::BadTile { level, place }) => {
                self.refusal = Some(TileError::BadTile { level, place });
                Ok(())
            }
        }
    }
}

impl<R, H: TreeHash, T: Disk> TiledMachine<R, H, T> {
    /// The disk of the tiles.
    pub(crate) fn into_disk(self) -> T
    where
        R: Drop,
        ensures { result ≡ tiles_disk (held_tiles self.held) }
    {
        let TiledMachine {
            numbers: _,
            held,
            refusal: _,
        } = self;
        disk_under(held)
    }
}

impl<R: ItemRules, H: TreeHash, T: Disk> StateMachine for TiledMachine<R, H, T> {
    ghost use Rattle.tiled_items.specs.Machine.{HasTiledCapacity, IsTiledWithin, KeepsTiledItems};
    ghost use Rattle.tiled_items.specs.Machine.{tiled_machine_view, tiled_rest};

    type Seed = TileSeed<T>;

    type Rest = TileRest<T>;

    ghost State = { R.View };

    ghost begins = { R.begins };

    ghost takes = { R.takes H.hash };

    ghost state = { λ it. tiled_machine_view R.ItemRules it };

    ghost Keeps = { λ it list. KeepsTiledItems R.ItemRules it list };

    ghost Within = { λ it commit_offset. IsTiledWithin R.ItemRules it commit_offset };

    ghost HasCapacity = { λ it body. HasTiledCapacity R.ItemRules it body };

    ghost IsBlank = { λ seed. SeedIsBlank seed };

    ghost rest_of = { λ seed. rest_of_tile_seed seed };

    ghost rest = { λ it. tiled_rest it };

    ghost Becomes = { λ was now. TileDiskIsRead T.Disk was now };

    ghost Stops = { λ was now. TileDiskIsLeft T.Disk was now };

    fn begin(
        alloc: Global,
        seed: TileSeed<T>,
        body: &[u8],
    ) -> Result<Self, NotBegun<TileRest<T>, Misfit>> {
        TiledMachine::begin_with(alloc, seed, body)
    }

    fn take(&mut self, place: u64, body: &[u8]) -> Result<(), Misfit> {
        self.take_next(place, body)
    }

    fn return_rest(seed: TileSeed<T>) -> TileRest<T> {
        let TileSeed { disk, pool: _ } = seed;
        TileRest {
            disk,
            refusal: None,
        }
    }

    fn into_rest(self) -> TileRest<T> {
        let refusal = self.refusal;
        TileRest {
            disk: self.into_disk(),
            refusal,
        }
    }

    ghost becomes_stops = { λ was now is. record {
      only_reads = is.only_reads;
      fine = λ usable. is.fine;
      failed = λ failed. absurd (is.usable failed);
    } };
}
