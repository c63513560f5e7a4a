//! The item at an index.

ghost use Rattle.std.specs.Prelude.{◌≡◌};
ghost use Rattle.entry_stream.specs.Folds.{IsPickOf};
ghost use Rattle.entry_stream.specs.Streams.{empty_list};

use crate::fold::ItemFold;
use mtc_io::{Bytes, Memory};
use std::alloc::Global;
use std::marker::Model;

/// The item at an index of a list: its entry and its key, of no bytes where the list is too short.
#[derive(Drop)]
pub struct ItemAt {
    alloc: Global,
    index: u64,
    items: u64,
    entry: Bytes,
    spki: Bytes,
}

impl Model for ItemAt {
    ghost use Rattle.entry_stream.specs.Folds.{PickState};

    ghost Value = { PickState };

    ghost view = { λ p. record {
      index = p.index;
      items = p.items;
      entry = p.entry;
      spki = p.spki;
    } };
}

impl ItemAt {
    /// That of a list without items. It takes no memory.
    pub fn new(alloc: Global, index: u64) -> ItemAt
        ensures index { result.index ≡ index }
        ensures none { IsPickOf result empty_list }
    {
        ItemAt {
            alloc,
            index,
            items: 0,
            entry: Bytes::new(alloc),
            spki: Bytes::new(alloc),
        }
    }

    /// The entry.
    pub fn entry(&self) -> &[u8]
        ensures { result.now ≡ self.now.entry }
    {
        self.entry.as_slice()
    }

    /// Its key.
    pub fn spki(&self) -> &[u8]
        ensures { result.now ≡ self.now.spki }
    {
        self.spki.as_slice()
    }
}

impl ItemFold for ItemAt {
    ghost use Rattle.std.specs.Prelude.{◌≡◌, [], ◌∷◌, OnOk};
    ghost use Rattle.entry_list.specs.Items.{ItemLists};
    ghost use Rattle.entry_stream.specs.Folds.{IsPickOf};
    ghost use Rattle.entry_stream.specs.Streams.{CanTakeMore, items_with};

    ghost has_taken = { IsPickOf };

    ghost made_with = { λ picked. picked.index ∷ [] };

    ghost purpose = { λ _. tt };

    fn take(&mut self, entry: &[u8], spki: &[u8]) -> Result<(), Memory>
        requires { CanTakeMore (IsPickOf self.old) }
        ensures taken { OnOk result ((items : ItemLists) → IsPickOf self.old items
            → IsPickOf self.new (items_with items entry.now spki.now)) }
        ensures index { self.new.index ≡ self.old.index }
    {
        if self.items == self.index {
            self.entry = Bytes::copy_of(self.alloc, entry)?;
            self.spki = Bytes::copy_of(self.alloc, spki)?;
        }
        self.items += 1;
        Ok(())
    }
}
