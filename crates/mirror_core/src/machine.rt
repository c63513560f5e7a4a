//! A mirror as a state machine over its journal.

ghost use Rattle.std.specs.Prelude.{◌≡◌, ◌<◌, ◌+◌, ◌^◌, ◌*◌, ◌≤◌, false, true, None, Some};
ghost use Rattle.std.specs.Prelude.{length};
ghost use Rattle.std.specs.Prelude.{List, is_some, IfErr, IsOk, MatchResult, IfOk, OnErr, OnOk};
ghost use Rattle.byte_formats.specs.Types.{Text};
ghost use Rattle.disk_core.specs.Times.{OnlyReads};
ghost use Rattle.issuance_log.specs.Machine.{IsUsable};
ghost use Rattle.mtc_io.specs.Counts.{Rose};
ghost use Rattle.state_journal.specs.Steps.{BeginsMachine, IsLeftBy, IsOutOfMemory, TakesRecord};
ghost use Rattle.tile_store.specs.Store.{tiles_disk, tiles_stored};
ghost use Rattle.mirror_core.specs.Folds.{begun_mirror_view, next_mirror_view};
ghost use Rattle.mirror_core.specs.Kept.{HasBatchCapacity, HasMirrorNumbers, HasTakenItems};
ghost use Rattle.mirror_core.specs.Kept.{kept_count, kept_leaves, kept_places, kept_tiles};
ghost use Rattle.mirror_core.specs.Machine.{HasBlankPool, MirrorLeavesTiles, MirrorReadsTiles};
ghost use Rattle.mirror_core.specs.Machine.{rest_of_mirror_seed};
ghost use Rattle.mirror_core.specs.Records.{mirrored_in};
ghost use Rattle.mirror_core.specs.Results.{IsRecordMemory, MirrorTakes};

use crate::error::RecordError;
use crate::kept::KeptItems;
use crate::numbers::Numbers;
use crate::record::read_batch;
use disk_core::Disk;
use frame_pool::Pool;
use state_journal::{Misfit, NotBegun, StateMachine};
use std::alloc::Global;
use tile_store::TileError;
use tree_core::TreeHash;

/// What the machine of a mirror is begun with in addition to its first record: the disk of its
/// tiles, and a pool of frames for them.
pub(crate) struct MirrorSeed<T> {
    pub(crate) disk: T,
    pub(crate) pool: Pool,
}

/// The disk of a mirror's tiles, and why they were not adopted, where they were not.
pub(crate) struct MirrorRest<T> {
    pub(crate) disk: T,
    pub(crate) refusal: Option<TileError>,
}

/// What the records of a journal make of a mirror: its numbers, and what it retains of its items.
/// The tiles of a size are adopted when its record is read, so that the nodes in them are let go at
/// once. Where one of them is bad, no more are adopted, and the records are read on, since a bad
/// record is reported first. Where their disk fails, the records are not read on.
///
/// Tiles that are stored are not read back. So a record that is appended calls no disk.
pub(crate) struct MirrorMachine<H: TreeHash, T: Disk> {
    pub(crate) numbers: Numbers,
    pub(crate) kept: KeptItems<H, T>,
    pub(crate) refusal: Option<TileError>,
}

// A drop in one step: a derived one is proved field by field wherever a value is dropped.
impl<H: TreeHash, T: Disk + Drop> Drop for MirrorMachine<H, T> {
    fn drop(self) {
        let MirrorMachine {
            numbers: _,
            kept: _,
            refusal: _,
        } = self;
    }
}

// The disk of the tiles.
fn disk_under<H: TreeHash, T: Disk>(kept: KeptItems<H, T>) -> T
    ensures { result ≡ tiles_disk (kept_tiles kept) }
{
    let KeptItems { places: _, nodes } = kept;
    nodes.into_disk()
}

// A mirror that isn't begun.
fn not_begun<T>(seed: MirrorSeed<T>, why: Misfit) -> NotBegun<MirrorRest<T>, Misfit>
    ensures rest { result.rest ≡ rest_of_mirror_seed seed }
    ensures why { result.why ≡ why }
{
    let MirrorSeed { disk, pool: _ } = seed;
    NotBegun {
        rest: MirrorRest {
            disk,
            refusal: None,
        },
        why,
    }
}

// Takes one record more, whose commit byte stands at an offset. A refusal leaves all as it was.
fn take_record<H: TreeHash, T: Disk>(
    numbers: &mut Numbers,
    kept: &mut KeptItems<H, T>,
    place: u64,
    body: &[u8],
) -> Result<(), RecordError>
    requires counted { kept_count kept.old ≡ numbers.old.size }
    ensures view { MirrorTakes (next_mirror_view H.hash numbers.old body.now) numbers.old result
        numbers.new }
    ensures long { OnOk result (4 * numbers.new.size ≤ 4 * numbers.old.size + length body.now) }
    ensures taken { OnOk result (HasTakenItems H.hash body.now place kept.old kept.new) }
    ensures disk { tiles_disk (kept_tiles kept.new) ≡ tiles_disk (kept_tiles kept.old) }
    ensures stored { tiles_stored (kept_tiles kept.new) ≡ tiles_stored (kept_tiles kept.old) }
    ensures capacity { ((items : List (Text × Text)) → mirrored_in body.now ≡ Some items
        → HasBatchCapacity (length items) kept.old) → IsRecordMemory result → ⊥ }
{
    match read_batch(body) {
        Ok((count, list)) => {
            if !numbers.takes_all::<H>(count, list) {
                return Err(RecordError::Unfit);
            }
            kept.reserve(count as usize)?;
            kept.push_batch(place, numbers.size(), list);
            numbers.add_items(count);
            Ok(())
        }
        Err(RecordError::Unfit) => numbers.take_other::<H>(body),
        Err(RecordError::Memory) => Err(RecordError::Memory),
    }
}

impl<H: TreeHash, T: Disk> MirrorMachine<H, T> {
    ghost use Rattle.mirror_core.specs.Machine.{HasMirrorCapacity, HasStoredTiles};
    ghost use Rattle.mirror_core.specs.Machine.{IsMirrorWithin, KeepsMirrored, rest_in_mirror};
    ghost use Rattle.mirror_core.specs.Machine.{view_of_machine};
    ghost use Rattle.mirror_core.specs.declared.machine.MirrorRest.{MirrorRest};

    // The machine that the first record begins.
    fn begin_with(
        alloc: Global,
        seed: MirrorSeed<T>,
        body: &[u8],
    ) -> Result<MirrorMachine<H, T>, NotBegun<MirrorRest<T>, Misfit>>
        requires { HasBlankPool seed }
        ensures begins { BeginsMachine begun_mirror_view (λ it. view_of_machine it)
            (λ it list. KeepsMirrored it list) body.now result }
        ensures within { IfOk result (λ it. IsMirrorWithin it (21 + length body.now)) }
        ensures rest { (was : MirrorRest T)
            → MirrorReadsTiles T.Disk was (rest_of_mirror_seed seed)
            → MatchResult result (λ it. MirrorReadsTiles T.Disk was (rest_in_mirror it))
            (λ e. IsLeftBy (MirrorReadsTiles T.Disk) (MirrorLeavesTiles T.Disk) was e.rest e.why) }
    {
        match Numbers::begin(alloc, body) {
            Ok(numbers) => {
                let MirrorSeed { disk, pool } = seed;
                Ok(MirrorMachine {
                    numbers,
                    kept: KeptItems::new(alloc, disk, pool),
                    refusal: None,
                })
            }
            Err(RecordError::Unfit) => Err(not_begun(seed, Misfit::Unfit)),
            Err(RecordError::Memory) => Err(not_begun(seed, Misfit::Memory)),
        }
    }

    // Takes one record more, whose commit byte stands at an offset, and adopts the tiles of its
    // size.
    fn take_next(&mut self, place: u64, body: &[u8]) -> Result<(), Misfit>
        requires within { IsMirrorWithin self.old place }
        requires fits { place + 5 + length body.now < 2 ^ 64 }
        ensures takes { TakesRecord (next_mirror_view H.hash) (λ it. view_of_machine it)
            (λ it list. KeepsMirrored it list) place body.now self.old self.new result }
        ensures within { OnOk result (IsMirrorWithin self.new (place + 5 + length body.now)) }
        ensures capacity { HasMirrorCapacity self.old body.now → IsOutOfMemory result → ⊥ }
        ensures rest { (was : MirrorRest T)
            → MirrorReadsTiles T.Disk was (rest_in_mirror self.old)
            → MatchResult result (λ _. MirrorReadsTiles T.Disk was (rest_in_mirror self.new))
            (λ why. IsLeftBy (MirrorReadsTiles T.Disk) (MirrorLeavesTiles T.Disk) was
            (rest_in_mirror self.new) why) }
        ensures still { HasMirrorCapacity self.old body.now
            → rest_in_mirror self.new ≡ rest_in_mirror self.old }
    {
        match take_record::<H, T>(&mut self.numbers, &mut self.kept, place, body) {
            Ok(()) => self.adopt_new(),
            Err(RecordError::Unfit) => Err(Misfit::Unfit),
            Err(RecordError::Memory) => Err(Misfit::Memory),
        }
    }

    // The tiles of the last size are stored, or tiles were refused.
    fn has_stored(&self) -> bool
        ensures yes { result ≡ true → HasStoredTiles self.now }
        ensures no { result ≡ false → (is_some self.now.refusal ≡ false)
            × (tiles_stored (kept_tiles self.now.kept) < (view_of_machine self.now).tiled) }
        ensures sound { HasMirrorNumbers (view_of_machine self.now) }
    {
        let size = self.numbers.tiled();
        self.refusal.is_some() || size <= self.kept.nodes.stored()
    }

    // Adopts the tiles of the last size that are not stored yet, unless tiles were refused before.
    // A refusal is retained. Where their disk failed, the answer is that the record can't be taken.
    fn adopt_new(&mut self) -> Result<(), Misfit>
        requires { kept_count self.old.kept ≡ (view_of_machine self.old).size }
        ensures view { view_of_machine self.new ≡ view_of_machine self.old }
        ensures places { kept_places self.new.kept ≡ kept_places self.old.kept }
        ensures count { kept_count self.new.kept ≡ kept_count self.old.kept }
        ensures leaves { kept_leaves self.new.kept ≡ kept_leaves self.old.kept }
        ensures stored { OnOk result (HasStoredTiles self.new) }
        ensures only_reads { OnlyReads T.Disk (tiles_disk (kept_tiles self.old.kept))
            (tiles_disk (kept_tiles self.new.kept)) }
        ensures fine { OnOk result (T.faults (tiles_disk (kept_tiles self.new.kept))
            ≡ T.faults (tiles_disk (kept_tiles self.old.kept))) }
        ensures usable { OnOk result (IsUsable self.old.refusal → IsUsable self.new.refusal) }
        ensures failed { OnErr result (self.new.refusal ≡ Some TileError.Failed) }
        ensures cause { OnErr result (Rose (T.faults (tiles_disk (kept_tiles self.old.kept)))
            (T.faults (tiles_disk (kept_tiles self.new.kept)))) }
        ensures memory { IfErr result (λ why. why ≡ Misfit.Memory) }
        ensures still { HasStoredTiles self.old
            → (rest_in_mirror self.new ≡ rest_in_mirror self.old) × IsOk result }
    {
        if self.has_stored() {
            return Ok(());
        }
        let size = self.numbers.tiled();
        match self.kept.nodes.adopt(size) {
            Ok(()) => Ok(()),
            Err(TileError::Failed) => {
                self.refusal = Some(TileError::Failed);
                Err(Misfit::Memory)
            }
            Err(TileError::BadTile { level, place }) => {
                self.refusal = Some(TileError::BadTile { level, place });
                Ok(())
            }
        }
    }

    /// The disk of the tiles.
    pub(crate) fn into_disk(self) -> T
        ensures { result ≡ tiles_disk (kept_tiles self.kept) }
    {
        let MirrorMachine {
            numbers: _,
            kept,
            refusal: _,
        } = self;
        disk_under(kept)
    }
}

impl<H: TreeHash, T: Disk> StateMachine for MirrorMachine<H, T> {
    ghost use Rattle.mirror_core.specs.Folds.{MirrorView};
    ghost use Rattle.mirror_core.specs.Machine.{HasMirrorCapacity, IsMirrorWithin, KeepsMirrored};
    ghost use Rattle.mirror_core.specs.Machine.{rest_in_mirror, view_of_machine};

    type Seed = MirrorSeed<T>;

    type Rest = MirrorRest<T>;

    ghost State = { MirrorView };

    ghost begins = { begun_mirror_view };

    ghost takes = { next_mirror_view H.hash };

    ghost state = { λ it. view_of_machine it };

    ghost Keeps = { λ it list. KeepsMirrored it list };

    ghost Within = { λ it commit_offset. IsMirrorWithin it commit_offset };

    ghost HasCapacity = { λ it body. HasMirrorCapacity it body };

    ghost IsBlank = { λ seed. HasBlankPool seed };

    ghost rest_of = { λ seed. rest_of_mirror_seed seed };

    ghost rest = { λ it. rest_in_mirror it };

    ghost Becomes = { λ was now. MirrorReadsTiles T.Disk was now };

    ghost Stops = { λ was now. MirrorLeavesTiles T.Disk was now };

    fn begin(
        alloc: Global,
        seed: MirrorSeed<T>,
        body: &[u8],
    ) -> Result<Self, NotBegun<MirrorRest<T>, Misfit>> {
        MirrorMachine::begin_with(alloc, seed, body)
    }

    fn take(&mut self, place: u64, body: &[u8]) -> Result<(), Misfit> {
        self.take_next(place, body)
    }

    fn return_rest(seed: MirrorSeed<T>) -> MirrorRest<T> {
        let MirrorSeed { disk, pool: _ } = seed;
        MirrorRest {
            disk,
            refusal: None,
        }
    }

    fn into_rest(self) -> MirrorRest<T> {
        let refusal = self.refusal;
        MirrorRest {
            disk: self.into_disk(),
            refusal,
        }
    }

    ghost becomes_stops = { λ was now is. record {
      only_reads = is.only_reads;
      fine = λ usable. is.fine;
      failed = λ failed. absurd (is.usable failed);
    } };
}
