//! The items of a file of entries.

ghost use Rattle.std.specs.Prelude.{◌≡◌, ◌<◌, [], length, slice_index_or};
ghost use Rattle.std.specs.Prelude.{drop, true};
ghost use Rattle.entry_list.specs.Items.{AreItems, is_key_of};
ghost use Rattle.entry_list.specs.Offsets.{entry_from, key_from, lists_at};

use mtc_io::Memory;
use std::marker::{Model, PhantomData};
use tls_wire::Cursor;
use tree_core::TreeHash;
use tree_proofs::EntryList;

/// An entry of a log, and the key for which it was made: a subjectPublicKeyInfo, or no bytes beside
/// an entry that is no certificate's.
#[derive(Clone, Copy, Debug)]
pub struct Item<'a> {
    pub entry: &'a [u8],
    pub spki: &'a [u8],
}

// What is left of a file from an offset on.
fn rest_from(file: &[u8], place: usize) -> &[u8]
    ensures { result.now ≡ drop place file.now }
{
    if place > file.len() {
        return &[];
    }
    let (_, rest) = file.split_at(place);
    rest
}

// The entry of the item that begins at this offset of a file; no bytes where none fits there.
fn entry_from(file: &[u8], place: usize) -> &[u8]
    ensures { result.now ≡ entry_from file.now place }
{
    match Cursor::new(rest_from(file, place)).vec16() {
        Ok(entry) => entry,
        Err(_) => &[],
    }
}

// The key after that entry; no bytes where none fits there.
fn key_from(file: &[u8], place: usize) -> &[u8]
    ensures { result.now ≡ key_from file.now place }
{
    let mut cursor = Cursor::new(rest_from(file, place));
    match cursor.vec16() {
        Ok(_) => match cursor.vec16() {
            Ok(key) => key,
            Err(_) => &[],
        },
        Err(_) => &[],
    }
}

/// The entries of a file, or some of them in their order. Contracts see them as a list.
#[derive(Drop)]
pub struct Entries<'a> {
    file: &'a [u8],
    offsets: &'a [usize],
}

impl<'a> Model for Entries<'a> {
    ghost use Rattle.std.specs.Prelude.{List, map};
    ghost use Rattle.byte_formats.specs.Types.{Text};
    ghost use Rattle.entry_list.specs.Offsets.{entry_from};

    ghost Value = { List Text };

    ghost view = { λ e. map (entry_from e.file.now) e.offsets.now };
}

impl<'a> EntryList for Entries<'a> {
    ghost texts = { λ entries. entries };

    fn len(&self) -> usize {
        self.offsets.len()
    }

    fn entry(&self, index: usize) -> &[u8] {
        entry_from(self.file, self.offsets[index])
    }

    fn prefix(&self, count: usize) -> Entries<'a> {
        Entries {
            file: self.file,
            offsets: &self.offsets[..count],
        }
    }

    fn after(&self, count: usize) -> Entries<'a> {
        let (_, offsets) = self.offsets.split_at(count);
        Entries {
            file: self.file,
            offsets,
        }
    }
}

/// The items of a file, which lie in its bytes: beside these only the offset of each is stored, in
/// eight bytes. Each key is the one of its entry, where `H` is the function that hashes keys.
/// Contracts see the entries and the keys as two lists.
#[derive(Drop)]
pub struct Items<'a, H: TreeHash> {
    file: &'a [u8],
    offsets: Vec<usize>,
    function: PhantomData<H>,
}

impl<'a, H: TreeHash> Model for Items<'a, H> {
    ghost use Rattle.entry_list.specs.Items.{AreItems, ItemLists};
    ghost use Rattle.entry_list.specs.Offsets.{lists_at};

    ghost Value = { ItemLists };

    ghost view = { λ i. lists_at i.file.now i.offsets.items };

    ghost invariant = { λ i. AreItems H.TreeHash.hash (lists_at i.file.now i.offsets.items) };
}

impl<'a, H: TreeHash> Items<'a, H> {
    pub(crate) fn of_offsets(file: &'a [u8], offsets: Vec<usize>) -> Items<'a, H>
        requires { AreItems H.hash (lists_at file.now offsets.items) }
        ensures { result ≡ lists_at file.now offsets.items }
    {
        Items {
            file,
            offsets,
            function: PhantomData,
        }
    }

    /// How many items there are.
    pub fn len(&self) -> usize
        ensures count { result ≡ length self.now.entries }
        ensures known { AreItems H.hash self.now }
    {
        self.offsets.len()
    }

    /// The entries in their order.
    pub fn entries(&self) -> Entries<'_>
        ensures { result ≡ self.now.entries }
    {
        Entries {
            file: self.file,
            offsets: self.offsets.as_slice(),
        }
    }

    /// The item at an index. Its key is the one of its entry.
    pub fn item(&self, index: usize) -> Item<'a>
        requires { index < length self.now.entries }
        ensures entry { result.entry.now ≡ slice_index_or self.now.entries index [] }
        ensures key { result.spki.now ≡ slice_index_or self.now.keys index [] }
        ensures own { is_key_of H.hash result.entry.now result.spki.now ≡ true }
    {
        let place = self.offsets[index];
        Item {
            entry: entry_from(self.file, place),
            spki: key_from(self.file, place),
        }
    }
}
