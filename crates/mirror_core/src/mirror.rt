//! A mirror that is open for more items.

ghost use Rattle.std.specs.Prelude.{◌≡◌, ◌↔◌, ℕ, ◌+◌, ◌*◌, ◌<◌, ◌≤◌, ◌^◌, List, [], length, max};
ghost use Rattle.std.specs.Prelude.{Some, None, Ok, Err, IfSome, IfOk, IfErr, IsErrOf, IsTrue};
ghost use Rattle.std.specs.Prelude.{OnErr, OnOk, is_some, false};
ghost use Rattle.std.proofs.Props.{props};
ghost use Rattle.entry_list.specs.Items.{AreItems, ItemLists};
ghost use Rattle.frame_pool.specs.Frames.{HoldsKey};
ghost use Rattle.frame_pool.specs.declared.key.TileKey.{TileKey as Key};
ghost use Rattle.issuance_log.specs.Records.{IsShort, tiles_record};
ghost use Rattle.issuance_log.specs.Refusals.{append_refusal};
ghost use Rattle.journal_core.specs.Format.{most_bytes};
ghost use Rattle.journal_core.specs.Words.{disk_of, end_of};
ghost use Rattle.tile_store.specs.Layout.{tiles_end};
ghost use Rattle.tile_store.specs.Store.{tiles_stored};
ghost use Rattle.mirror_core.specs.Durable.{IsDurableMirror, IsDurableMirror-prop};
ghost use Rattle.mirror_core.specs.Folds.{MirrorState, MirrorView, more_mirrored, mirror_tiled_to};
ghost use Rattle.mirror_core.specs.Folds.{next_mirror_view, view_in_mirror, with_mirror_tiles};
ghost use Rattle.mirror_core.specs.Folds.{with_mirrored};
ghost use Rattle.mirror_core.specs.Kept.{HasMirrorNumbers, kept_count, kept_leaves, kept_places};
ghost use Rattle.mirror_core.specs.Kept.{kept_tiles};
ghost use Rattle.mirror_core.specs.Machine.{HasMirrorCapacity};
ghost use Rattle.mirror_core.specs.Openings.{mirror_open_refusal};
ghost use Rattle.mirror_core.specs.Places.{ArePlaced};
ghost use Rattle.mirror_core.specs.Records.{mirror_batch_record};
ghost use Rattle.mirror_core.specs.Refusals.{GivesMirrored, KeepsToMirrorJournal, MirrorCounts};
ghost use Rattle.mirror_core.specs.Refusals.{IsNoMirrorAnswer};
ghost use Rattle.mirror_core.specs.Refusals.{MirrorCountsAll, MirrorTilesKeepTo, TakeAnswers};
ghost use Rattle.mirror_core.specs.Refusals.{TakeKeepsTo, first_difference, full_mirror_size};
ghost use Rattle.mirror_core.specs.Refusals.{mirror_item_at, mirror_tile_refusal, next_batch};
ghost use Rattle.mirror_core.specs.Refusals.{pairs_of, take_refusal};
ghost use Rattle.mirror_core.specs.Rules.{IsSoundMirror};
ghost use Rattle.mirror_core.specs.Written.{ItemsWentOut, KeepsToMirrorSize, SinkCounts};
ghost use Rattle.mirror_core.specs.Written.{mirrored_file};
ghost use Rattle.journal_core.specs.Copies.{AppendsSome};

use crate::bodies::read_item;
use crate::comparing::find_difference;
use crate::error::{MirrorError, MirrorOpenError, MirrorRefused, open_refusal};
use crate::listing::write_first;
use crate::machine::{MirrorMachine, MirrorRest, MirrorSeed};
use crate::numbers::MOST;
use crate::preparing::{prepare_batch, prepare_tiles};
use disk_core::Disk;
use entry_list::Items;
use frame_pool::Pool;
use journal_core::Journal;
use mtc_io::{Bytes, Failed, Sink};
use state_journal::{StateRefused, append_to, open_state};
use std::alloc::Global;
use tls_wire::AnchorId;
use tree_core::TreeHash;

/// The items of a log, each an entry and the key beside it, over the journal of their records; and
/// the nodes of the tree over the entries, of which those in full tiles that were stored stand on a
/// second disk. `H` is the hash function of the tree, and that by which a key belongs to an entry.
///
/// In memory are the id of the log, the place of each Batch in the journal and the nodes that are
/// in no adopted tile. The hash of an entry is among these at once. The nodes above are made when a
/// node is asked for, and before tiles over them are stored or adopted.
///
/// So a mirror shows its numbers over every disk, and its items if the model knows the bytes of the
/// journal's disk. They are what its records on the disk make. Where an append has failed, the disk
/// may hold one record more.
pub struct Mirror<H: TreeHash, D: Disk, T: Disk> {
    alloc: Global,
    journal: Journal<D>,
    pub(crate) machine: MirrorMachine<H, T>,
    ghost counted: { kept_count machine.kept ≡ machine.numbers.size },
    ghost adopted: { is_some machine.refusal ≡ false },
    ghost stored: { machine.numbers.tiled ≤ tiles_stored (kept_tiles machine.kept) },
    ghost placed: { ArePlaced (kept_places machine.kept) machine.numbers.size
        (end_of journal) },
    ghost long: { 4 * machine.numbers.size < end_of journal },
    ghost durable: { (b : List ℕ) → D.Disk.contents (disk_of journal) ≡ Some b → IsDurableMirror
        H.TreeHash.hash machine.numbers (kept_places machine.kept) (kept_leaves machine.kept)
        (end_of journal) b } by { Prim.hlevel (
          props,
          IsDurableMirror-prop,
        ) },
}

// A mirror whose records are not read.
fn not_opened<D, T>(refused: StateRefused<D, MirrorRest<T>>) -> MirrorRefused<D, T>
    ensures disk { result.disk ≡ refused.disk }
    ensures tiles { result.tiles ≡ refused.rest.disk }
    ensures why { result.why ≡ mirror_open_refusal refused.why refused.rest.refusal }
{
    let StateRefused { disk, rest, why } = refused;
    let MirrorRest {
        disk: tiles,
        refusal,
    } = rest;
    MirrorRefused {
        disk,
        tiles,
        why: open_refusal(why, refusal),
    }
}

// A drop in one step: a derived one is proved field by field wherever a value is dropped.
impl<H: TreeHash, D: Disk + Drop, T: Disk + Drop> Drop for Mirror<H, D, T> {
    fn drop(self) {
        let Mirror {
            alloc: _,
            journal: _,
            machine: _,
        } = self;
    }
}

impl<H: TreeHash, D: Disk, T: Disk> Mirror<H, D, T> {
    ghost use Rattle.mirror_core.specs.Opened.{MirrorIsNotOpened, MirrorIsOpened};
    ghost use Rattle.mirror_core.specs.Words.{IsMirroredAs, KeepsMirrorTiles, MirrorAppends};
    ghost use Rattle.mirror_core.specs.Words.{MirrorAsksJournal, MirrorReadsAndAppends};
    ghost use Rattle.mirror_core.specs.Words.{MirrorStays, MirrorTilesStandAfter, MirrorWouldTake};
    ghost use Rattle.mirror_core.specs.Words.{mirror_broken, mirror_disk, mirror_end};
    ghost use Rattle.mirror_core.specs.Words.{mirror_tiles_disk, mirror_view, modelled_mirror};

    /// Opens the mirror in a journal, with its tiles on a second disk and a pool whose frames hold
    /// no tile. The records are read and tested one by one. At each that has a size of tiles these
    /// are read back and compared, and the nodes in them are let go; but where one of them is bad,
    /// no more are compared before the last record.
    ///
    /// Errors: what [`open_state`] refuses, where `BadRecord` comes at the first record that breaks
    /// the rules, or where there is none; where the disk of the tiles fails, `Tile(Failed)` at
    /// once; and after the last record the first bad tile. The disks are returned, and were only
    /// read.
    pub fn open(
        alloc: Global,
        disk: D,
        tiles: T,
        pool: Pool,
    ) -> Result<Mirror<H, D, T>, MirrorRefused<D, T>>
        requires { (slot : ℕ) (key : Key) → HoldsKey pool slot key → ⊥ }
        ensures opened { IfOk result (MirrorIsOpened disk tiles) }
        ensures refused { IfErr result
            (λ e. MirrorIsNotOpened D.Disk T.Disk H.hash disk e.disk tiles e.tiles e.why) }
    {
        let seed = MirrorSeed { disk: tiles, pool };
        let (journal, mut machine) = match open_state::<MirrorMachine<H, T>, D>(alloc, disk, seed) {
            Ok(opened) => opened,
            Err(refused) => return Err(not_opened(refused)),
        };
        let size = machine.numbers.tiled();
        match machine.kept.nodes.adopt(size) {
            Ok(()) => {
                machine.refusal = None;
                Ok(Mirror {
                    alloc,
                    journal,
                    machine,
                })
            }
            Err(why) => Err(MirrorRefused {
                disk: journal.into_disk(),
                tiles: machine.into_disk(),
                why: MirrorOpenError::Tile(why),
            }),
        }
    }

    /// Takes items that begin with those of the mirror, and appends by one record as many of the
    /// new ones as it holds: a body of at most 131,072 bytes, which ends before the first item of
    /// which entry and key have more than 65,535 bytes together. The answer is the new size. At Ok
    /// a crash leaves the records with that of the items; at any time of the call it leaves the old
    /// records, or these and that one. The call leaves the disk of the tiles alone, and compares
    /// the bytes of the items.
    ///
    /// Errors, in the order of the tests: `Failed` of the journal's disk while items are read back;
    /// `Differs` with the number of the first item that isn't the one of the mirror; `NothingNew`
    /// where there are no more items than those of the mirror; `TooLarge` with the size where the
    /// first new item has more than 65,535 bytes; `Memory`, which may also come while items are
    /// read back; and what [`Journal::append`] refuses. A refusal leaves the mirror as it was.
    /// After `Append(Failed)` it shows what it showed before, and each further call that passes the
    /// tests before answers `Append(Broken)`.
    pub fn take(&mut self, items: &Items<'_, H>) -> Result<u64, MirrorError>
        ensures appends { let new = next_batch (mirror_view self.old).size (pairs_of items.now) in
            MirrorReadsAndAppends (mirror_batch_record new) (more_mirrored (length new))
            (with_mirrored new) self.old self.new result }
        ensures size { IfOk result (λ size. size ≡ (mirror_view self.old).size
            + length (next_batch (mirror_view self.old).size (pairs_of items.now))) }
        ensures answer { TakeAnswers (modelled_mirror self.old) (mirror_view self.old).size
            (mirror_broken self.old) (mirror_end self.old) (pairs_of items.now) result }
        ensures tiles { mirror_tiles_disk self.new ≡ mirror_tiles_disk self.old }
        ensures cause { MirrorCountsAll (D.faults (mirror_disk self.old))
            (D.faults (mirror_disk self.new)) result }
    {
        if let Some(number) = self.compare(items)? {
            return Err(MirrorError::Differs(number));
        }
        self.append_new(items)
    }

    // The number of the first item that differs from the one of the mirror.
    fn compare(&mut self, items: &Items<'_, H>) -> Result<Option<u64>, MirrorError>
        ensures found { IfOk result (λ found. IfSome (modelled_mirror self.old)
            (λ s. found ≡ first_difference s.items (pairs_of items.now))) }
        ensures why { IfErr result IsNoMirrorAnswer }
        ensures asks { MirrorAsksJournal self.old self.new }
        ensures cause { MirrorCounts (D.faults (mirror_disk self.old))
            (D.faults (mirror_disk self.new)) result }
    {
        find_difference::<H, D>(
            self.alloc,
            &mut self.journal,
            self.machine.kept.places.as_slice(),
            items,
        )
    }

    // Appends as many of the new items as one record holds, where no item differs.
    fn append_new(&mut self, items: &Items<'_, H>) -> Result<u64, MirrorError>
        ensures appends { let new = next_batch (mirror_view self.old).size (pairs_of items.now) in
            MirrorAppends (mirror_batch_record new) (more_mirrored (length new))
            (with_mirrored new) self.old self.new result }
        ensures size { IfOk result (λ size. size ≡ (mirror_view self.old).size
            + length (next_batch (mirror_view self.old).size (pairs_of items.now))) }
        ensures answer { TakeKeepsTo (take_refusal None (mirror_view self.old).size
            (mirror_broken self.old) (mirror_end self.old) (pairs_of items.now)) result }
        ensures tiles { mirror_tiles_disk self.new ≡ mirror_tiles_disk self.old }
        ensures cause { MirrorCountsAll (D.faults (mirror_disk self.old))
            (D.faults (mirror_disk self.new)) result }
    {
        let size = self.machine.numbers.size();
        let (body, count) = prepare_batch(self.alloc, size, &mut self.machine.kept, items)?;
        if count >= MOST - size {
            return self.refuse_long(body.as_slice());
        }
        self.append_record(body.as_slice(), size + count)
    }

    /// Stores the tiles that the entries fill, makes them durable, and then appends the greatest
    /// multiple of 256 that isn't above the size, which it answers. The next opening adopts them.
    /// At any time a crash leaves the tiles that it would have left before. If it leaves the new
    /// record it leaves all tiles of the new size, unless an append had failed before. Whatever it
    /// answers, it brings the known length of their disk no further than the end of these tiles.
    ///
    /// Errors, in the order of the tests: `NothingNew` where this number isn't above the last size
    /// of tiles; `Memory`; `Failed` of the disk of the tiles; and what [`Journal::append`] refuses.
    /// A refusal leaves the mirror as it was, but for tiles on their disk after those of the last
    /// size. After `Append(Failed)` it shows what it showed before, and each further call that
    /// passes the tests before answers `Append(Broken)`.
    pub fn tile(&mut self) -> Result<u64, MirrorError>
        ensures appends { MirrorAppends (tiles_record (full_mirror_size (mirror_view self.old)))
            (mirror_tiled_to (full_mirror_size (mirror_view self.old)))
            (with_mirror_tiles (full_mirror_size (mirror_view self.old)))
            self.old self.new result }
        ensures size { IfOk result (λ size. size ≡ full_mirror_size (mirror_view self.old)) }
        ensures answer { MirrorTilesKeepTo (mirror_tile_refusal (mirror_view self.old)
            (mirror_broken self.old) (mirror_end self.old)) result }
        ensures keeps { KeepsMirrorTiles (mirror_view self.old).tiled self.old self.new }
        ensures following { MirrorTilesStandAfter
            (tiles_record (full_mirror_size (mirror_view self.old)))
            (full_mirror_size (mirror_view self.old)) self.old self.new }
        ensures known { OnOk result (T.known (mirror_tiles_disk self.new)
            ≡ max (tiles_end (full_mirror_size (mirror_view self.old)))
            (T.known (mirror_tiles_disk self.old))) }
        ensures reach { T.known (mirror_tiles_disk self.new)
            ≤ max (tiles_end (full_mirror_size (mirror_view self.old)))
            (T.known (mirror_tiles_disk self.old)) }
        ensures cause { MirrorCounts (T.faults (mirror_tiles_disk self.old))
            (T.faults (mirror_tiles_disk self.new)) result }
    {
        let size = self.machine.numbers.full_size();
        let body = prepare_tiles(self.alloc, &self.machine.numbers)?;
        self.machine.kept.nodes.store(size)?;
        self.append_record(body.as_slice(), size)
    }

    // Appends a record that the mirror allows and has capacity for, and answers `answer`. No disk
    // but the journal's is called.
    fn append_record<X: Drop>(&mut self, body: &[u8], answer: X) -> Result<X, MirrorError>
        requires some { 1 ≤ length body.now }
        requires few { length body.now ≤ 131072 }
        requires allowed { IsTrue (is_some (next_mirror_view H.hash (mirror_view self.old)
            body.now)) }
        requires capacity { HasMirrorCapacity self.old.machine body.now }
        ensures appends { (seen : MirrorView → MirrorView) (next : MirrorState → MirrorState)
            → IsMirroredAs H.hash (mirror_view self.old) body.now seen next
            → MirrorAppends body.now seen next self.old self.new result }
        ensures answer { IfOk result (λ x. x ≡ answer) }
        ensures refusal { KeepsToMirrorJournal
            (append_refusal (mirror_broken self.old) (mirror_end self.old) body.now) result }
        ensures tiles { mirror_tiles_disk self.new ≡ mirror_tiles_disk self.old }
    {
        append_to(&mut self.journal, &mut self.machine, body)?;
        Ok(answer)
    }

    // The refusal of a record that would take the journal past its longest. No disk is called.
    fn refuse_long(&mut self, body: &[u8]) -> Result<u64, MirrorError>
        requires some { 1 ≤ length body.now }
        requires few { length body.now ≤ 131072 }
        requires long { most_bytes < mirror_end self.old + 5 + length body.now }
        ensures appends { (seen : MirrorView → MirrorView) (next : MirrorState → MirrorState)
            → MirrorAppends body.now seen next self.old self.new result }
        ensures answer { IfOk result (λ size. ⊥) }
        ensures refusal { KeepsToMirrorJournal
            (append_refusal (mirror_broken self.old) (mirror_end self.old) body.now) result }
        ensures tiles { mirror_tiles_disk self.new ≡ mirror_tiles_disk self.old }
    {
        match self.journal.append(body) {
            Ok(()) => unreachable!(),
            Err(why) => Err(MirrorError::Append(why)),
        }
    }

    /// The id of the log.
    pub fn log(&self) -> &AnchorId
        ensures { result.now ≡ (mirror_view self.now).log }
    {
        self.machine.numbers.log()
    }

    /// How many items the mirror has.
    pub fn size(&self) -> u64
        ensures value { result ≡ (mirror_view self.now).size }
        ensures few { result < 2 ^ 32 }
    {
        self.machine.numbers.size()
    }

    /// The last size of the tiles, 0 where there is none.
    pub fn tiled(&self) -> u64
        ensures { result ≡ (mirror_view self.now).tiled }
    {
        self.machine.numbers.tiled()
    }

    /// What holds of every mirror: the clauses say it, and the call does nothing. Over any disk
    /// there are fewer than 2^32 items, and its tiles are those of a multiple of 256 up to its
    /// size. If the model knows the bytes of the journal's disk, the mirror in them shows the same
    /// numbers, and each of its items has at most 65,535 bytes and the key that has to stand beside
    /// its entry; also after an append that failed.
    pub fn law_sound(&self)
        ensures numbers { HasMirrorNumbers (mirror_view self.now) }
        ensures view { IfSome (modelled_mirror self.now)
            (λ s. view_in_mirror s ≡ mirror_view self.now) }
        ensures items { IfSome (modelled_mirror self.now) (IsSoundMirror H.hash) }
    {
        let _ = self.machine.numbers.size();
    }

    /// A record that the call of its kind does not refuse follows the rules: after the records of
    /// the journal, where its contents are known, it makes the mirror that the call says. The
    /// clauses are the law, and the call does nothing.
    pub fn law_unrefused_records_are_taken(&self)
        ensures taken { (items : ItemLists) → AreItems H.hash items
            → take_refusal None (mirror_view self.now).size (mirror_broken self.now)
            (mirror_end self.now) (pairs_of items) ≡ None → MirrorWouldTake
            (mirror_batch_record (next_batch (mirror_view self.now).size (pairs_of items)))
            (with_mirrored (next_batch (mirror_view self.now).size (pairs_of items))) self.now }
        ensures tiled { mirror_tile_refusal (mirror_view self.now) (mirror_broken self.now)
            (mirror_end self.now) ≡ None → MirrorWouldTake
            (tiles_record (full_mirror_size (mirror_view self.now)))
            (with_mirror_tiles (full_mirror_size (mirror_view self.now))) self.now }
    {
        let _ = self.machine.numbers.size();
    }

    /// The entry at an index and the key beside it, instead of what the two byte strings held. It
    /// is read back from the journal, with the whole Batch in which it stands.
    ///
    /// Errors, in the order of the tests: `Beyond` with the size where the index isn't below it;
    /// `Memory` and `Failed`, whichever comes first. After a refusal both byte strings are empty.
    /// The call only reads the journal's disk, it leaves that of the tiles alone, and the mirror
    /// shows what it showed before. Over a disk whose bytes the model doesn't know an item that
    /// can't be read there is `Memory`.
    #[tactic(auto, unfolding(crate::specs::Refusals::mirror_item_at))]
    pub fn item(
        &mut self,
        index: u64,
        entry: &mut Bytes,
        spki: &mut Bytes,
    ) -> Result<(), MirrorError>
        ensures item { IfSome (modelled_mirror self.old)
            (λ s. GivesMirrored (mirror_item_at s index) result entry.new spki.new) }
        ensures none { IsErrOf result (MirrorError.Beyond (mirror_view self.old).size)
            ↔ ((mirror_view self.old).size ≤ index) }
        ensures short { OnOk result (IsShort entry.new × IsShort spki.new) }
        ensures empty { OnErr result ((entry.new ≡ []) × (spki.new ≡ [])) }
        ensures stays { MirrorStays self.old self.new }
        ensures tiles { mirror_tiles_disk self.new ≡ mirror_tiles_disk self.old }
        ensures cause { MirrorCounts (D.faults (mirror_disk self.old))
            (D.faults (mirror_disk self.new)) result }
    {
        entry.truncate(0);
        spki.truncate(0);
        let size = self.size();
        if index >= size {
            return Err(MirrorError::Beyond(size));
        }
        let batch = self.machine.kept.place_of(index);
        read_item(
            self.alloc,
            &mut self.journal,
            batch.place,
            index - batch.first,
            entry,
            spki,
        )
    }

    /// Writes so many of the first items as a file of entries: each entry and the key beside it,
    /// both after a length of two bytes. It writes while it reads: each Batch is read once, and the
    /// body of one is in memory. Answers whether all of the file went out, or the sink failed. If
    /// an append has failed, its items are not written, even if they are on the disk.
    ///
    /// Errors: `Beyond` with the size where there are fewer items, and then nothing is written;
    /// `Memory` and `Failed` of the journal's disk, whichever comes first. The sink has then taken
    /// a prefix of the file that isn't all of it, and where it failed itself any prefix. The call
    /// only reads the journal's disk, it leaves that of the tiles alone, and the mirror shows what
    /// it showed before. Over a disk whose bytes the model doesn't know nothing is said of the
    /// bytes that went out.
    pub fn write_items<O: Sink>(
        &mut self,
        size: u64,
        out: &mut O,
    ) -> Result<Result<(), Failed>, MirrorError>
        ensures written { IfSome (modelled_mirror self.old) (λ s. ItemsWentOut
            (O.taken out.old) (O.taken out.new) (mirrored_file size s) result) }
        ensures grows { AppendsSome (O.taken out.old) (O.taken out.new) }
        ensures size { KeepsToMirrorSize (mirror_view self.old).size size result }
        ensures untouched { (mirror_view self.old).size < size → out.new ≡ out.old }
        ensures stays { MirrorStays self.old self.new }
        ensures tiles { mirror_tiles_disk self.new ≡ mirror_tiles_disk self.old }
        ensures cause { MirrorCounts (D.faults (mirror_disk self.old))
            (D.faults (mirror_disk self.new)) result }
        ensures took { SinkCounts (O.faults out.old) (O.faults out.new) result }
    {
        let have = self.size();
        if have < size {
            return Err(MirrorError::Beyond(have));
        }
        let places = self.machine.kept.places.as_slice();
        write_first(self.alloc, &mut self.journal, places, size, out)
    }

    /// The disk of the journal, and that of the tiles.
    pub fn into_disks(self) -> (D, T)
        ensures journal { result.0 ≡ mirror_disk self }
        ensures tiles { result.1 ≡ mirror_tiles_disk self }
    {
        let Mirror {
            alloc: _,
            journal,
            machine,
        } = self;
        (journal.into_disk(), machine.into_disk())
    }
}
