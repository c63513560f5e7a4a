//! What a log shows over every disk.

ghost use Rattle.std.specs.Prelude.{◌≡◌, ◌+◌, ◌%◌, ◌<◌, ◌≤◌, ◌++◌, [], ◌∷◌, length, true, false};
ghost use Rattle.std.specs.Prelude.{Some, None, if◌then◌else◌, nat_lt, not, option_map};
ghost use Rattle.std.specs.Prelude.{vec_len, vec_capacity, IfOk, IfErr, OnOk, OnErr};
ghost use Rattle.issuance_log.specs.Folds.{begun_log, log_form, new_log, next_view, one_item_more};
ghost use Rattle.issuance_log.specs.Folds.{more_entries, of_size, one_mark_more, switched_now};
ghost use Rattle.issuance_log.specs.Folds.{takes_entry, takes_items, takes_landmark};
ghost use Rattle.issuance_log.specs.Folds.{takes_switch, takes_tiles, tiled_to};
ghost use Rattle.issuance_log.specs.Batches.{leading_items};
ghost use Rattle.issuance_log.specs.Folds.{view_after_step, view_in};
ghost use Rattle.issuance_log.specs.LogSteps.{log_step};
ghost use Rattle.issuance_log.specs.Marks.{last_mark, AreRising};
ghost use Rattle.issuance_log.specs.Records.{added_in, item_in, mark_in, switch_in, tiled_in};
ghost use Rattle.issuance_log.specs.Refusals.{full_size};
ghost use Rattle.issuance_log.specs.Results.{HasMarkCapacity, IsMemoryRefused, LogFinds, LogTakes};
ghost use Rattle.issuance_log.specs.Settings.{AreAllowed};
ghost use Rattle.issuance_log.specs.Sound.{HasSoundNumbers};

use crate::error::RecordError;
use crate::record::{
    LANDMARK, SWITCH, TILES, next_item, read_batch, read_item, read_settings, size_in,
};
use crate::settings::LogSettings;
use log_entry::{Form, key_matches_in};
use mtc_io::Memory;
use std::alloc::Global;
use std::marker::Model;
use tree_core::TreeHash;

/// As many entries fill a tile.
const TILE: u64 = 256;

/// The settings of a log, how many entries it has, the sizes at its landmarks, the last size of its
/// tiles, 0 if there is none, and the index from which on entries name the algorithm of their key,
/// if it was switched. The rules of a log's records read nothing else. Contracts see them, and how
/// many landmarks more need no memory.
#[derive(Drop)]
pub(crate) struct Numbers {
    settings: LogSettings,
    size: u64,
    marks: Vec<u64>,
    tiled: u64,
    switched: Option<u64>,
}

impl Model for Numbers {
    ghost use Rattle.std.specs.Prelude.{◌-◌, vec_len, vec_capacity};
    ghost use Rattle.issuance_log.specs.Folds.{LogNumbers};
    ghost use Rattle.issuance_log.specs.Sound.{HasSoundNumbers};

    ghost Value = { LogNumbers };

    ghost view = { λ n. record {
      view = record {
        settings = n.settings;
        size = n.size;
        marks = n.marks.items;
        tiled = n.tiled;
        switched = n.switched;
      };
      mark_spare = vec_capacity n.marks - vec_len n.marks;
    } };

    ghost invariant = { λ n. HasSoundNumbers (record {
      settings = n.settings;
      size = n.size;
      marks = n.marks.items;
      tiled = n.tiled;
      switched = n.switched;
    }) };
}

// Appends a number to the others, within the capacity.
fn put(list: &mut Vec<u64>, number: u64)
    requires { vec_len list.old < vec_capacity list.old }
    ensures { list.new.items ≡ list.old.items ++ number ∷ [] }
{
    match list.push(number) {
        Ok(()) => {}
        Err(_full) => unreachable!(),
    }
}

impl Numbers {
    /// Those of the log that the first record begins.
    #[tactic(auto, unfolding(crate::specs::Folds::begun_log))]
    pub(crate) fn begin(alloc: Global, body: &[u8]) -> Result<Numbers, RecordError>
        ensures found { LogFinds (λ n. n.view) (option_map view_in (begun_log body.now)) result }
        ensures sound { IfOk result (λ n. HasSoundNumbers n.view) }
        ensures untiled { IfOk result (λ n. n.view.tiled ≡ 0) }
    {
        let settings = read_settings(alloc, body)?;
        Ok(Numbers::new(alloc, settings))
    }

    /// Those of a new log with these settings. It takes no memory.
    pub(crate) fn new(alloc: Global, settings: LogSettings) -> Numbers
        ensures view { result.view ≡ view_in (new_log settings) }
        ensures untiled { result.view.tiled ≡ 0 }
        ensures sound { HasSoundNumbers result.view }
    {
        Numbers {
            settings,
            size: 1,
            marks: Vec::new(alloc),
            tiled: 0,
            switched: None,
        }
    }

    /// Takes one record more. `Unfit` comes exactly if it breaks the rules, and a refusal leaves
    /// all as it was.
    #[tactic(auto, unfolding(crate::specs::Folds::next_view))]
    pub(crate) fn take<H: TreeHash>(&mut self, body: &[u8]) -> Result<(), RecordError>
        ensures { LogTakes (next_view H.hash self.old.view body.now)
            self.old.view result self.new.view }
    {
        match read_item(body) {
            Ok((entry, key)) => self.take_item::<H>(entry, key),
            Err(RecordError::Unfit) => self.take_no_item::<H>(body),
            Err(RecordError::Memory) => Err(RecordError::Memory),
        }
    }

    fn take_item<H: TreeHash>(&mut self, entry: &[u8], key: &[u8]) -> Result<(), RecordError>
        ensures ok { OnOk result ((takes_entry H.hash self.old.view (entry.now, key.now) ≡ true)
            × (self.new.view ≡ one_item_more self.old.view)) }
        ensures err { IfErr result (λ why. (why ≡ RecordError.Unfit)
            × (takes_entry H.hash self.old.view (entry.now, key.now) ≡ false)
            × (self.new.view ≡ self.old.view)) }
    {
        if !self.takes::<H>(entry, key) {
            return Err(RecordError::Unfit);
        }
        self.add_item();
        Ok(())
    }

    // Takes a record that is no Entry.
    #[tactic(auto, unfolding(crate::specs::Folds::next_view))]
    fn take_no_item<H: TreeHash>(&mut self, body: &[u8]) -> Result<(), RecordError>
        requires { item_in body.now ≡ None }
        ensures taken { LogTakes (next_view H.hash self.old.view body.now)
            self.old.view result self.new.view }
    {
        match read_batch(body) {
            Ok((count, items)) => self.take_items::<H>(count, items),
            Err(RecordError::Unfit) => self.take_other::<H>(body),
            Err(RecordError::Memory) => Err(RecordError::Memory),
        }
    }

    fn take_items<H: TreeHash>(&mut self, count: u64, items: &[u8]) -> Result<(), RecordError>
        requires { count ≡ length (leading_items items.now) }
        ensures ok { OnOk result ((takes_items H.hash self.old.view (leading_items items.now)
            ≡ true) × (self.new.view ≡ more_entries count self.old.view)) }
        ensures err { IfErr result (λ why. (why ≡ RecordError.Unfit)
            × (takes_items H.hash self.old.view (leading_items items.now) ≡ false)
            × (self.new.view ≡ self.old.view)) }
    {
        if !self.takes_all::<H>(items) {
            return Err(RecordError::Unfit);
        }
        self.add_items(count);
        Ok(())
    }

    /// Takes a record that adds no item.
    #[tactic(auto, unfolding(crate::specs::Folds::next_view))]
    pub(crate) fn take_other<H: TreeHash>(&mut self, body: &[u8]) -> Result<(), RecordError>
        requires { added_in body.now ≡ None }
        ensures taken { LogTakes (next_view H.hash self.old.view body.now)
            self.old.view result self.new.view }
        ensures capacity { HasMarkCapacity self.old (mark_in body.now)
            → IsMemoryRefused result → ⊥ }
    {
        match size_in(LANDMARK, body) {
            Ok(size) => self.take_mark(size),
            Err(RecordError::Unfit) => self.take_rest::<H>(body),
            Err(RecordError::Memory) => Err(RecordError::Memory),
        }
    }

    fn take_mark(&mut self, size: u64) -> Result<(), RecordError>
        ensures taken { LogTakes (if takes_landmark self.old.view size
            then Some (one_mark_more self.old.view) else None) self.old.view result self.new.view }
        ensures full { IsMemoryRefused result → self.old.mark_spare ≡ 0 }
    {
        if size != self.size || size <= self.last_mark() {
            return Err(RecordError::Unfit);
        }
        self.prepare_mark()?;
        self.push_mark();
        Ok(())
    }

    // Takes a record that adds no item and is no Landmark.
    fn take_rest<H: TreeHash>(&mut self, body: &[u8]) -> Result<(), RecordError>
        ensures taken { LogTakes (view_after_step H.hash self.old.view
            (log_step None None (tiled_in body.now) (switch_in body.now)))
            self.old.view result self.new.view }
        ensures sure { IsMemoryRefused result → ⊥ }
    {
        match size_in(TILES, body) {
            Ok(size) => self.take_tiles(size),
            Err(RecordError::Unfit) => {
                let index = size_in(SWITCH, body)?;
                self.take_switch(index)
            }
            Err(RecordError::Memory) => Err(RecordError::Memory),
        }
    }

    fn take_switch(&mut self, index: u64) -> Result<(), RecordError>
        ensures taken { LogTakes (if takes_switch self.old.view index
            then Some (switched_now self.old.view) else None) self.old.view result self.new.view }
        ensures sure { IsMemoryRefused result → ⊥ }
    {
        match self.switched {
            None if index == self.size => {
                self.switched = Some(index);
                Ok(())
            }
            _ => Err(RecordError::Unfit),
        }
    }

    fn take_tiles(&mut self, size: u64) -> Result<(), RecordError>
        ensures taken { LogTakes (if takes_tiles self.old.view size
            then Some (tiled_to size self.old.view) else None) self.old.view result self.new.view }
        ensures sure { IsMemoryRefused result → ⊥ }
    {
        if size % TILE != 0 || size <= self.tiled || size > self.size {
            return Err(RecordError::Unfit);
        }
        self.set_tiled(size);
        Ok(())
    }

    /// Whether the log takes an Entry: the log isn't full, and the entry has the form of the next
    /// one and a key that matches.
    pub(crate) fn takes<H: TreeHash>(&self, entry: &[u8], key: &[u8]) -> bool
        ensures value { result ≡ takes_entry H.hash self.now.view (entry.now, key.now) }
        ensures sound { HasSoundNumbers self.now.view }
    {
        self.takes_at::<H>(self.size, entry, key)
    }

    // Whether it would take an Entry if it had so many entries.
    fn takes_at<H: TreeHash>(&self, size: u64, entry: &[u8], key: &[u8]) -> bool
        ensures { result ≡ takes_entry H.hash (of_size size self.now.view) (entry.now, key.now) }
    {
        size < self.settings.limit as u64
            && key_matches_in::<H>(entry, key, Form::at(self.switched, size))
    }

    /// Whether the log takes the items that begin these bytes: each by the rule of an Entry, after
    /// those before it.
    pub(crate) fn takes_all<H: TreeHash>(&self, items: &[u8]) -> bool
        ensures value { result ≡ takes_items H.hash self.now.view (leading_items items.now) }
        ensures within { result ≡ true → self.now.view.size + length (leading_items items.now)
            ≤ self.now.view.settings.limit }
        ensures sound { HasSoundNumbers self.now.view }
    {
        let mut size = self.size;
        let mut rest = items;
        'items: while let Some((entry, key, later)) = next_item(rest) {
            if !self.takes_at::<H>(size, entry, key) {
                return false;
            }
            size += 1;
            rest = later;
        }
        true
    }

    /// The log has as many entries as its limit allows.
    pub(crate) fn is_full(&self) -> bool
        ensures full { result ≡ not (nat_lt self.now.view.size self.now.view.settings.limit) }
        ensures sound { HasSoundNumbers self.now.view }
    {
        self.size >= self.settings.limit as u64
    }

    /// How many entries more its limit allows.
    pub(crate) fn left(&self) -> u64
        ensures left { self.now.view.size + result ≡ self.now.view.settings.limit }
        ensures sound { HasSoundNumbers self.now.view }
    {
        self.settings.limit as u64 - self.size
    }

    pub(crate) fn size(&self) -> u64
        ensures value { result ≡ self.now.view.size }
        ensures sound { HasSoundNumbers self.now.view }
    {
        self.size
    }

    /// The greatest multiple of 256 that isn't above the size: so many entries fill tiles.
    pub(crate) fn full_size(&self) -> u64
        ensures value { result ≡ full_size self.now.view }
        ensures sound { HasSoundNumbers self.now.view }
    {
        self.size / TILE * TILE
    }

    pub(crate) fn settings(&self) -> &LogSettings
        ensures value { result.now ≡ self.now.view.settings }
        ensures allowed { AreAllowed result.now.max_active result.now.limit }
    {
        &self.settings
    }

    /// The sizes at the landmarks.
    pub(crate) fn marks(&self) -> &[u64]
        ensures value { result.now ≡ self.now.view.marks }
        ensures rising { AreRising 0 self.now.view.size result.now }
    {
        self.marks.as_slice()
    }

    /// The size of the last landmark, 0 where there is none.
    pub(crate) fn last_mark(&self) -> u64
        ensures value { result ≡ last_mark self.now.view.marks }
        ensures sound { HasSoundNumbers self.now.view }
    {
        if self.marks.is_empty() {
            0
        } else {
            self.marks[self.marks.len() - 1]
        }
    }

    /// The last size of the tiles, 0 where there is none.
    pub(crate) fn tiled(&self) -> u64
        ensures value { result ≡ self.now.view.tiled }
        ensures sound { HasSoundNumbers self.now.view }
    {
        self.tiled
    }

    /// The index from which on entries name the algorithm of their key, if the log was switched.
    pub(crate) fn switched(&self) -> Option<u64>
        ensures value { result ≡ self.now.view.switched }
        ensures sound { HasSoundNumbers self.now.view }
    {
        self.switched
    }

    /// The form of the next entry.
    pub(crate) fn form(&self) -> Form
        ensures { result ≡ log_form self.now.view }
    {
        Form::at(self.switched, self.size)
    }

    /// One entry more.
    pub(crate) fn add_item(&mut self)
        requires { self.old.view.size < self.old.view.settings.limit }
        ensures view { self.new.view ≡ one_item_more self.old.view }
        ensures spare { self.new.mark_spare ≡ self.old.mark_spare }
    {
        self.size += 1;
    }

    /// So many entries more.
    pub(crate) fn add_items(&mut self, count: u64)
        requires { self.old.view.size + count ≤ self.old.view.settings.limit }
        ensures view { self.new.view ≡ more_entries count self.old.view }
        ensures spare { self.new.mark_spare ≡ self.old.mark_spare }
    {
        self.size += count;
    }

    /// Reserves capacity for a landmark. All else stays as it was.
    pub(crate) fn prepare_mark(&mut self) -> Result<(), Memory>
        ensures spare { OnOk result (1 ≤ self.new.mark_spare) }
        ensures full { OnErr result (self.old.mark_spare ≡ 0) }
        ensures same { self.new.view ≡ self.old.view }
    {
        self.marks.reserve(1)?;
        Ok(())
    }

    /// Appends a landmark at the size to the others, within the capacity.
    pub(crate) fn push_mark(&mut self)
        requires spare { 1 ≤ self.old.mark_spare }
        requires above { last_mark self.old.view.marks < self.old.view.size }
        ensures { self.new.view ≡ one_mark_more self.old.view }
    {
        put(&mut self.marks, self.size);
    }

    /// The tiles of this size are the last ones.
    pub(crate) fn set_tiled(&mut self, size: u64)
        requires multiple { size % 256 ≡ 0 }
        requires within { size ≤ self.old.view.size }
        ensures view { self.new.view ≡ tiled_to size self.old.view }
    {
        self.tiled = size;
    }
}
