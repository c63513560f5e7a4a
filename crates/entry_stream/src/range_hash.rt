//! The tree hash of a part of a list.

ghost use Rattle.std.specs.Prelude.{◌≡◌, length};
ghost use Rattle.tree_core.specs.Path.{part_of};
ghost use Rattle.tree_core.specs.Tree.{tree_hash};
ghost use Rattle.entry_list.specs.Items.{ItemLists};
ghost use Rattle.entry_stream.specs.Folds.{IsRangeOf};
ghost use Rattle.entry_stream.specs.Streams.{empty_list};

use crate::fold::ItemFold;
use mtc_io::Memory;
use std::marker::Model;
use tree_core::{TreeHash, leaf};
use tree_peaks::Peaks;

/// The tree hash of the entries from `start` up to `end`, without `end`, as far as a list has them.
#[derive(Drop)]
pub struct RangeHash<H: TreeHash> {
    start: u64,
    end: u64,
    items: u64,
    peaks: Peaks<H>,
}

impl<H: TreeHash> Model for RangeHash<H> {
    ghost use Rattle.entry_stream.specs.Folds.{RangeState};

    ghost Value = { RangeState };

    ghost view = { λ r. record {
      start = r.start;
      end = r.end;
      items = r.items;
      peaks = r.peaks;
    } };
}

impl<H: TreeHash> RangeHash<H> {
    /// That of a list without entries.
    pub fn new(start: u64, end: u64) -> RangeHash<H>
        ensures start { result.start ≡ start }
        ensures end { result.end ≡ end }
        ensures none { IsRangeOf H.hash result empty_list }
    {
        RangeHash {
            start,
            end,
            items: 0,
            peaks: Peaks::new(),
        }
    }

    /// How many items were taken.
    pub fn len(&self) -> u64
        ensures { (items : ItemLists) → IsRangeOf H.hash self.now items
            → result ≡ length items.entries }
    {
        self.items
    }

    /// The tree hash.
    pub fn root(&self) -> [u8; 32]
        ensures { (items : ItemLists) → IsRangeOf H.hash self.now items
            → result ≡ tree_hash H.hash (part_of items.entries self.now.start self.now.end) }
    {
        self.peaks.root()
    }
}

impl<H: TreeHash> ItemFold for RangeHash<H> {
    ghost use Rattle.std.specs.Prelude.{◌≡◌, [], ◌∷◌, OnOk};
    ghost use Rattle.entry_list.specs.Items.{ItemLists};
    ghost use Rattle.entry_stream.specs.Folds.{IsRangeOf};
    ghost use Rattle.entry_stream.specs.Streams.{CanTakeMore, items_with};

    ghost has_taken = { IsRangeOf H.TreeHash.hash };

    ghost made_with = { λ range. range.start ∷ range.end ∷ [] };

    ghost purpose = { λ _. tt };

    fn take(&mut self, entry: &[u8], _spki: &[u8]) -> Result<(), Memory>
        requires { CanTakeMore (IsRangeOf H.TreeHash.hash self.old) }
        ensures taken { OnOk result ((items : ItemLists) → IsRangeOf H.TreeHash.hash self.old items
            → IsRangeOf H.TreeHash.hash self.new (items_with items entry.now _spki.now)) }
        ensures start { self.new.start ≡ self.old.start }
        ensures end { self.new.end ≡ self.old.end }
    {
        let index = self.items;
        self.items += 1;
        if index < self.start {
            return Ok(());
        }
        if index >= self.end {
            return Ok(());
        }
        self.peaks.push(&leaf::<H>(entry));
        Ok(())
    }
}
