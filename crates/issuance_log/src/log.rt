//! A log that is open for more entries.

ghost use Rattle.std.specs.Prelude.{◌≡◌, ◌↔◌, ℕ, ◌≤◌, ◌+◌, List, [], length, true, false};
ghost use Rattle.std.specs.Prelude.{Some, None, IfSome, IfOk, IfErr, IsErrOf, IsTrue, OnOk, OnErr};
ghost use Rattle.std.specs.Prelude.{is_some, max};
ghost use Rattle.std.proofs.Props.{props};
ghost use Rattle.byte_formats.specs.Types.{Text};
ghost use Rattle.frame_pool.specs.Frames.{HoldsKey};
ghost use Rattle.frame_pool.specs.declared.key.TileKey.{TileKey as Key};
ghost use Rattle.journal_core.specs.Words.{disk_of, end_of};
ghost use Rattle.log_entry.specs.Matching.{has_form, matches};
ghost use Rattle.tile_store.specs.Layout.{tiles_end};
ghost use Rattle.tile_store.specs.Store.{tiles_stored};
ghost use Rattle.issuance_log.specs.Batches.{AreOfForm};
ghost use Rattle.issuance_log.specs.Changes.{IsTakenAs, KeepsToJournal};
ghost use Rattle.issuance_log.specs.Durable.{IsDurableLog, IsDurableLog-prop};
ghost use Rattle.issuance_log.specs.Entries.{LogCounts};
ghost use Rattle.issuance_log.specs.Faults.{open_refusal};
ghost use Rattle.issuance_log.specs.Folds.{LogState, LogView, log_form, next_view, with_item};
ghost use Rattle.issuance_log.specs.Folds.{one_item_more, one_mark_more, switched_now, tiled_to};
ghost use Rattle.issuance_log.specs.Folds.{more_entries, view_in, with_items, with_mark};
ghost use Rattle.issuance_log.specs.Folds.{with_switch, with_tiles};
ghost use Rattle.issuance_log.specs.Items.{AreBelow, items_leaves, items_offsets, items_tiles};
ghost use Rattle.issuance_log.specs.Machine.{HasRecordCapacity};
ghost use Rattle.issuance_log.specs.Marks.{AreRising};
ghost use Rattle.issuance_log.specs.Records.{batch_record, entry_record, landmark_record};
ghost use Rattle.issuance_log.specs.Records.{switch_record, tiles_record, IsShort};
ghost use Rattle.issuance_log.specs.Refusals.{add_refusal, ItemKeepsTo, batch_refusal};
ghost use Rattle.issuance_log.specs.Refusals.{BatchKeepsTo, mark_refusal, MarkKeepsTo};
ghost use Rattle.issuance_log.specs.Refusals.{full_size, switch_refusal, SwitchKeepsTo};
ghost use Rattle.issuance_log.specs.Refusals.{tile_refusal, TilesKeepTo};
ghost use Rattle.issuance_log.specs.Refusals.{append_refusal, item_at, GivesItem};
ghost use Rattle.issuance_log.specs.Settings.{AreAllowed};
ghost use Rattle.issuance_log.specs.Sound.{HasSoundNumbers, IsSound};

use crate::batch::LogItem;
use crate::entries::read_entry;
use crate::error::{LogError, LogOpenError, LogRefused, open_refusal};
use crate::items::NULL_ENTRY;
use crate::machine::{LogMachine, TileRest, TileSeed};
use crate::preparing::{prepare_item, prepare_items, prepare_mark, prepare_switch, prepare_tiles};
use crate::settings::LogSettings;
use disk_core::Disk;
use frame_pool::Pool;
use journal_core::Journal;
use log_entry::Form;
use mtc_io::Bytes;
use state_journal::{StateRefused, append_to, open_state};
use std::alloc::Global;
use tree_core::TreeHash;

/// The entries of a log, each with the key to it, and the sizes at its landmarks, over the journal
/// of their records; and the nodes of the tree over the entries, of which those in full tiles that
/// were stored stand on a second disk. `H` is the hash function of the tree, and that by which a
/// key belongs to an entry.
///
/// In memory are the settings, the offset of each entry in the journal, the landmarks and the nodes
/// that are in no adopted tile. The hash of an entry is among these at once. The nodes above are
/// made when a node is asked for, and before tiles over them are stored or adopted: an opening that
/// adopts none hashes no pair.
///
/// So a log shows its numbers over every disk, and its entries if the model knows the bytes of the
/// journal's disk. They are what its records on the disk make. Where an append has failed, the disk
/// may hold one record more.
pub struct Log<H: TreeHash, D: Disk, T: Disk> {
    alloc: Global,
    journal: Journal<D>,
    pub(crate) machine: LogMachine<H, T>,
    ghost counted: { length (items_offsets machine.items) ≡ machine.numbers.view.size },
    ghost adopted: { is_some machine.refusal ≡ false },
    ghost stored: { machine.numbers.view.tiled ≤ tiles_stored (items_tiles machine.items) },
    ghost below: { AreBelow (items_offsets machine.items)
        (end_of journal) } by { Prim.hlevel props },
    ghost durable: { (b : List ℕ) → D.Disk.contents (disk_of journal) ≡ Some b → IsDurableLog
        H.TreeHash.hash machine.numbers.view (items_offsets machine.items)
        (items_leaves machine.items) (end_of journal) b } by { Prim.hlevel (
          props,
          IsDurableLog-prop,
        ) },
}

// A log whose records are not read.
pub(crate) fn not_opened<D, T>(refused: StateRefused<D, TileRest<T>>) -> LogRefused<D, T>
    ensures disk { result.disk ≡ refused.disk }
    ensures tiles { result.tiles ≡ refused.rest.disk }
    ensures why { result.why ≡ open_refusal refused.why refused.rest.refusal }
{
    let StateRefused { disk, rest, why } = refused;
    let TileRest {
        disk: tiles,
        refusal,
    } = rest;
    LogRefused {
        disk,
        tiles,
        why: open_refusal(why, refusal),
    }
}

// A drop in one step: a derived one is proved field by field wherever a value is dropped.
impl<H: TreeHash, D: Disk + Drop, T: Disk + Drop> Drop for Log<H, D, T> {
    fn drop(self) {
        let Log {
            alloc: _,
            journal: _,
            machine: _,
        } = self;
    }
}

impl<H: TreeHash, D: Disk, T: Disk> Log<H, D, T> {
    ghost use Rattle.issuance_log.specs.Opened.{LogIsNotOpened, LogIsOpened};
    ghost use Rattle.issuance_log.specs.Words.{log_disk, log_tiles_disk, log_end};
    ghost use Rattle.issuance_log.specs.Words.{log_broken, modelled_state};
    ghost use Rattle.issuance_log.specs.Words.{view_of, LogAppends, LogStays};
    ghost use Rattle.issuance_log.specs.Words.{LogWouldTake};
    ghost use Rattle.issuance_log.specs.Words.{KeepsTiles, TilesStandAfter};

    /// Opens the log in a journal, with its tiles on a second disk and a pool whose frames hold no
    /// tile. The records are read and tested one by one. At each that has a size of tiles these
    /// are read back and compared, and the nodes in them are let go; but where one of them is bad,
    /// no more are compared before the last record.
    ///
    /// Errors: what [`open_state`] refuses, where `BadRecord` comes at the first record that breaks
    /// the rules, or where there is none; where the disk of the tiles fails, `Tile(Failed)` at
    /// once; and after the last record the first bad tile. The disks are returned, and were only
    /// read.
    pub fn open(
        alloc: Global,
        disk: D,
        tiles: T,
        pool: Pool,
    ) -> Result<Log<H, D, T>, LogRefused<D, T>>
        requires { (slot : ℕ) (key : Key) → HoldsKey pool slot key → ⊥ }
        ensures opened { IfOk result (LogIsOpened disk tiles) }
        ensures refused { IfErr result
            (λ e. LogIsNotOpened D.Disk T.Disk H.hash disk e.disk tiles e.tiles e.why) }
    {
        let seed = TileSeed { disk: tiles, pool };
        let (journal, mut machine) = match open_state::<LogMachine<H, T>, D>(alloc, disk, seed) {
            Ok(opened) => opened,
            Err(refused) => return Err(not_opened(refused)),
        };
        let size = machine.numbers.tiled();
        match machine.items.nodes.adopt(size) {
            Ok(()) => {
                machine.refusal = None;
                Ok(Log {
                    alloc,
                    journal,
                    machine,
                })
            }
            Err(why) => Err(LogRefused {
                disk: journal.into_disk(),
                tiles: machine.into_disk(),
                why: LogOpenError::Tile(why),
            }),
        }
    }

    /// Adds an entry, in the form that [`Log::form`] says, with the key that belongs to it, and
    /// answers its index. At Ok a crash leaves
    /// the records with that of the entry; at any time of the call it leaves the old records, or
    /// these and that one. The call leaves the disk of the tiles alone.
    ///
    /// Errors, in the order of the tests: `Full` where the log has as many entries as its limit
    /// allows; `TooLarge` where the entry and its key have more than 65,535 bytes together;
    /// `Memory`; and what [`Journal::append`] refuses. A refusal leaves the log as it was. After
    /// `Append(Failed)` it shows what it showed before, and each further call that passes the tests
    /// before answers `Append(Broken)`.
    pub fn add(&mut self, entry: &[u8], spki: &[u8]) -> Result<u64, LogError>
        requires belongs { matches H.hash entry.now spki.now ≡ true }
        requires form { has_form (log_form (view_of self.old)) entry.now ≡ true }
        ensures appends { LogAppends (entry_record entry.now spki.now) one_item_more
            (with_item entry.now spki.now) self.old self.new result }
        ensures tiles { log_tiles_disk self.new ≡ log_tiles_disk self.old }
        ensures index { IfOk result (λ index. index ≡ (view_of self.old).size) }
        ensures answer { ItemKeepsTo (add_refusal (view_of self.old) (log_broken self.old)
            (log_end self.old) entry.now spki.now) result }
    {
        let index = self.machine.numbers.size();
        let body = prepare_item(
            self.alloc,
            &self.machine.numbers,
            &mut self.machine.items,
            entry,
            spki,
        )?;
        self.append_record(body.as_slice(), index)
    }

    /// Adds entries, each in the form that [`Log::form`] says, with the key that belongs to it, by
    /// one record, and answers the index of the first: the others follow it in their order. At Ok a
    /// crash leaves the records with that of the entries; at any time of the call it leaves the old
    /// records, or these and that one, so all of the entries or none. The call leaves the disk of
    /// the tiles alone.
    ///
    /// Errors, in the order of the tests, each made for all items before the next: `Full` where the
    /// log would have more entries than its limit allows; `TooMany`, with how many of the first
    /// items fit it, where the body of the record would be longer than 131,072 bytes; `TooLarge`
    /// where an entry and its key have more than 65,535 bytes together; `Memory`; and what
    /// [`Journal::append`] refuses. A refusal leaves the log as it was. After `Append(Failed)` it
    /// shows what it showed before, and each further call that passes the tests before answers
    /// `Append(Broken)`.
    pub fn add_all(&mut self, items: &[LogItem]) -> Result<u64, LogError>
        requires some { 1 ≤ length items.now }
        requires each { AreOfForm H.hash (log_form (view_of self.old)) items.now }
        ensures appends { LogAppends (batch_record items.now) (more_entries (length items.now))
            (with_items items.now) self.old self.new result }
        ensures tiles { log_tiles_disk self.new ≡ log_tiles_disk self.old }
        ensures index { IfOk result (λ index. index ≡ (view_of self.old).size) }
        ensures answer { BatchKeepsTo (batch_refusal (view_of self.old) (log_broken self.old)
            (log_end self.old) items.now) result }
    {
        let first = self.machine.numbers.size();
        let body = prepare_items(
            self.alloc,
            &self.machine.numbers,
            &mut self.machine.items,
            items,
        )?;
        self.append_record(body.as_slice(), first)
    }

    /// Sets a landmark at the size of the log, and answers its number, counted from 1, and that
    /// size. At Ok a crash leaves the records with that of the landmark; at any time of the call it
    /// leaves the old records, or these and that one. The call leaves the disk of the tiles alone.
    ///
    /// Errors, in the order of the tests: `NothingNew` where the last landmark has this size;
    /// `Memory`; and what [`Journal::append`] refuses. A refusal leaves the log as it was. After
    /// `Append(Failed)` it shows what it showed before, and each further call that passes the tests
    /// before answers `Append(Broken)`.
    pub fn mark(&mut self) -> Result<(u64, u64), LogError>
        ensures appends { LogAppends (landmark_record (view_of self.old).size) one_mark_more
            with_mark self.old self.new result }
        ensures tiles { log_tiles_disk self.new ≡ log_tiles_disk self.old }
        ensures number { IfOk result
            (λ landmark. landmark.0 ≡ length (view_of self.old).marks + 1) }
        ensures size { IfOk result (λ landmark. landmark.1 ≡ (view_of self.old).size) }
        ensures answer { MarkKeepsTo
            (mark_refusal (view_of self.old) (log_broken self.old) (log_end self.old)) result }
    {
        let body = prepare_mark(self.alloc, &mut self.machine.numbers)?;
        let size = self.machine.numbers.size();
        let number = self.machine.numbers.marks().len() as u64 + 1;
        self.append_record(body.as_slice(), (number, size))
    }

    /// Switches the log: from its size on, which it answers, entries name the algorithm of their
    /// key. At Ok a crash leaves the records with that of the switch; at any time of the call it
    /// leaves the old records, or these and that one. The call leaves the disk of the tiles alone.
    ///
    /// Errors, in the order of the tests: `AlreadySwitched` with the index where the log was
    /// switched; `Memory`; and what [`Journal::append`] refuses. A refusal leaves the log as it
    /// was. After `Append(Failed)` it shows what it showed before, and each further call that
    /// passes the tests before answers `Append(Broken)`.
    pub fn switch(&mut self) -> Result<u64, LogError>
        ensures appends { LogAppends (switch_record (view_of self.old).size) switched_now
            with_switch self.old self.new result }
        ensures tiles { log_tiles_disk self.new ≡ log_tiles_disk self.old }
        ensures index { IfOk result (λ index. index ≡ (view_of self.old).size) }
        ensures answer { SwitchKeepsTo
            (switch_refusal (view_of self.old) (log_broken self.old) (log_end self.old)) result }
    {
        let body = prepare_switch(self.alloc, &self.machine.numbers)?;
        let size = self.machine.numbers.size();
        self.append_record(body.as_slice(), size)
    }

    /// Stores the tiles that the entries fill, makes them durable, and then appends the greatest
    /// multiple of 256 that isn't above the size, which it answers. The next opening adopts them.
    /// At any time a crash leaves the tiles that it would have left before. If it leaves the new
    /// record it leaves all tiles of the new size, unless an append had failed before. Whatever it
    /// answers, it brings the known length of their disk no further than the end of these tiles.
    ///
    /// Errors, in the order of the tests: `NothingNew` where this number isn't above the last size
    /// of tiles; `Memory`; `Failed` of the disk of the tiles; and what [`Journal::append`] refuses.
    /// A refusal leaves the log as it was, but for tiles on their disk after those of the last
    /// size. After `Append(Failed)` it shows what it showed before, and each further call that
    /// passes the tests before answers `Append(Broken)`.
    pub fn tile(&mut self) -> Result<u64, LogError>
        ensures appends { LogAppends (tiles_record (full_size (view_of self.old)))
            (tiled_to (full_size (view_of self.old))) (with_tiles (full_size (view_of self.old)))
            self.old self.new result }
        ensures size { IfOk result (λ size. size ≡ full_size (view_of self.old)) }
        ensures answer { TilesKeepTo
            (tile_refusal (view_of self.old) (log_broken self.old) (log_end self.old)) result }
        ensures keeps { KeepsTiles (view_of self.old).tiled self.old self.new }
        ensures following { TilesStandAfter (tiles_record (full_size (view_of self.old)))
            (full_size (view_of self.old)) self.old self.new }
        ensures known { OnOk result (T.known (log_tiles_disk self.new)
            ≡ max (tiles_end (full_size (view_of self.old))) (T.known (log_tiles_disk self.old))) }
        ensures reach { T.known (log_tiles_disk self.new)
            ≤ max (tiles_end (full_size (view_of self.old))) (T.known (log_tiles_disk self.old)) }
        ensures cause { LogCounts (T.faults (log_tiles_disk self.old))
            (T.faults (log_tiles_disk self.new)) result }
    {
        let size = self.machine.numbers.full_size();
        let body = prepare_tiles(self.alloc, &self.machine.numbers)?;
        self.machine.items.nodes.store(size)?;
        self.append_record(body.as_slice(), size)
    }

    // Appends a record that the log allows and has capacity for, and answers `answer`. No disk but
    // the journal's is called.
    fn append_record<X: Drop>(&mut self, body: &[u8], answer: X) -> Result<X, LogError>
        requires some { 1 ≤ length body.now }
        requires few { length body.now ≤ 131072 }
        requires sound { HasSoundNumbers (view_of self.old) }
        requires allowed { IsTrue (is_some (next_view H.hash (view_of self.old) body.now)) }
        requires capacity { HasRecordCapacity self.old.machine body.now }
        ensures appends { (seen : LogView → LogView) (next : LogState → LogState)
            → IsTakenAs H.hash (view_of self.old) body.now seen next
            → LogAppends body.now seen next self.old self.new result }
        ensures answer { IfOk result (λ x. x ≡ answer) }
        ensures refusal { KeepsToJournal
            (append_refusal (log_broken self.old) (log_end self.old) body.now) result }
        ensures tiles { log_tiles_disk self.new ≡ log_tiles_disk self.old }
    {
        append_to(&mut self.journal, &mut self.machine, body)?;
        Ok(answer)
    }

    /// How many entries the log has, the null entry among them.
    pub fn size(&self) -> u64
        ensures value { result ≡ (view_of self.now).size }
        ensures some { 1 ≤ result }
        ensures few { result ≤ (view_of self.now).settings.limit }
    {
        self.machine.numbers.size()
    }

    /// The last size of the tiles, 0 where there is none.
    pub fn tiled(&self) -> u64
        ensures { result ≡ (view_of self.now).tiled }
    {
        self.machine.numbers.tiled()
    }

    /// The index from which on entries name the algorithm of their key, if the log was switched.
    pub fn switched(&self) -> Option<u64>
        ensures { result ≡ (view_of self.now).switched }
    {
        self.machine.numbers.switched()
    }

    /// The form of the next entry.
    pub fn form(&self) -> Form
        ensures { result ≡ log_form (view_of self.now) }
    {
        self.machine.numbers.form()
    }

    /// What holds of every log: the clauses say it, and the call does nothing. Over any disk the
    /// landmarks rise up to the size at most, and the tiles are within it. If the model knows the
    /// bytes of the journal's disk, the log in them shows the same numbers, each entry but the
    /// first reads as one of type 1 in the form of its index, to which its key belongs, and the
    /// lengths of both fit two bytes; also after an append that failed.
    pub fn law_sound(&self)
        ensures numbers { HasSoundNumbers (view_of self.now) }
        ensures view { IfSome (modelled_state self.now) (λ s. view_in s ≡ view_of self.now) }
        ensures items { IfSome (modelled_state self.now) (IsSound H.hash) }
    {
        let _ = self.machine.numbers.size();
    }

    /// A record that the call of its kind does not refuse follows the rules: after the records of
    /// the journal, where its contents are known, it makes the log that the call says. The clauses
    /// are the law, and the call does nothing.
    pub fn law_unrefused_records_are_taken(&self)
        ensures added { (entry key : Text) → matches H.hash entry key ≡ true
            → has_form (log_form (view_of self.now)) entry ≡ true
            → add_refusal (view_of self.now) (log_broken self.now) (log_end self.now) entry key
            ≡ None → LogWouldTake (entry_record entry key) (with_item entry key) self.now }
        ensures listed { (items : List (Text × Text)) → 1 ≤ length items
            → AreOfForm H.hash (log_form (view_of self.now)) items
            → batch_refusal (view_of self.now) (log_broken self.now) (log_end self.now) items
            ≡ None → LogWouldTake (batch_record items) (with_items items) self.now }
        ensures marked { mark_refusal (view_of self.now) (log_broken self.now) (log_end self.now)
            ≡ None → LogWouldTake (landmark_record (view_of self.now).size) with_mark self.now }
        ensures tiled { tile_refusal (view_of self.now) (log_broken self.now) (log_end self.now)
            ≡ None → LogWouldTake (tiles_record (full_size (view_of self.now)))
            (with_tiles (full_size (view_of self.now))) self.now }
        ensures switched { switch_refusal (view_of self.now) (log_broken self.now)
            (log_end self.now) ≡ None
            → LogWouldTake (switch_record (view_of self.now).size) with_switch self.now }
    {
        let _ = self.machine.numbers.size();
    }

    /// The settings, which never change.
    pub fn settings(&self) -> &LogSettings
        ensures value { result.now ≡ (view_of self.now).settings }
        ensures allowed { AreAllowed result.now.max_active result.now.limit }
    {
        self.machine.numbers.settings()
    }

    /// The sizes at the landmarks, from the first to the last. They rise strictly, and none is
    /// above the size of the log.
    pub fn marks(&self) -> &[u64]
        ensures value { result.now ≡ (view_of self.now).marks }
        ensures rising { AreRising 0 (view_of self.now).size result.now }
    {
        self.machine.numbers.marks()
    }

    /// The entry at an index and its key, instead of what the two byte strings held. It is read
    /// back from the journal, by one call of its disk.
    ///
    /// Errors, in the order of the tests: `NoSuchEntry` where the index isn't below the size;
    /// `Memory` and `Failed`, whichever comes first. After a refusal both byte strings are empty.
    /// The call only reads the journal's disk, it leaves that of the tiles alone, and the log shows
    /// what it showed before. Over a disk whose bytes the model doesn't know an Entry that can't be
    /// read there is `Memory`.
    #[tactic(auto, unfolding(crate::specs::Refusals::item_at))]
    pub fn entry(&mut self, index: u64, entry: &mut Bytes, spki: &mut Bytes) -> Result<(), LogError>
        ensures item { IfSome (modelled_state self.old)
            (λ s. GivesItem (item_at s index) result entry.new spki.new) }
        ensures none { IsErrOf result LogError.NoSuchEntry ↔ ((view_of self.old).size ≤ index) }
        ensures short { OnOk result (IsShort entry.new × IsShort spki.new) }
        ensures empty { OnErr result ((entry.new ≡ []) × (spki.new ≡ [])) }
        ensures stays { LogStays self.old self.new }
        ensures tiles { log_tiles_disk self.new ≡ log_tiles_disk self.old }
        ensures cause { LogCounts (D.faults (log_disk self.old)) (D.faults (log_disk self.new))
            result }
    {
        entry.truncate(0);
        spki.truncate(0);
        if index >= self.size() {
            return Err(LogError::NoSuchEntry);
        }
        if index == 0 {
            entry.append(&NULL_ENTRY)?;
            return Ok(());
        }
        let place = self.machine.items.place(index);
        let next = self.machine.items.next_place(index);
        read_entry(self.alloc, &mut self.journal, place, next, entry, spki)
    }

    /// The disk of the journal, and that of the tiles.
    pub fn into_disks(self) -> (D, T)
        ensures journal { result.0 ≡ log_disk self }
        ensures tiles { result.1 ≡ log_tiles_disk self }
    {
        let Log {
            alloc: _,
            journal,
            machine,
        } = self;
        (journal.into_disk(), machine.into_disk())
    }
}
