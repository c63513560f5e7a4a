//! Reading a file of entries.

ghost use Rattle.std.specs.Prelude.{◌≡◌, ◌<◌, [], ◌∷◌, ◌++◌, length, OnOk};
ghost use Rattle.byte_formats.specs.Readings.{Answers, Moves};
ghost use Rattle.entry_list.specs.Items.{is_key_of, item_pair};
ghost use Rattle.entry_list.specs.Reading.{listed_at, items_in};
ghost use Rattle.entry_list.specs.declared.error.ItemsError.TheVariants.{Memory as NoCapacity};

use crate::error::ItemsError;
use crate::items::{Item, Items};
use log_entry::{Entry, is_key_of_tbs, read_entry};
use mtc_io::Memory as NoMemory;
use std::alloc::Global;
use tls_wire::Cursor;
use tree_core::TreeHash;

/// Whether the key is the one that has to stand beside the entry: that for which an entry of type 1
/// was made, and no bytes beside any other.
#[tactic(auto, unfolding(crate::specs::Items::is_key_of, log_entry::specs::Matching::matches))]
pub fn is_key_of<H: TreeHash>(entry: &[u8], spki: &[u8]) -> bool
    ensures { result ≡ is_key_of H.hash entry.now spki.now }
{
    match read_entry(entry) {
        Ok(Entry::Tbs(tbs)) => is_key_of_tbs::<H>(&tbs, spki),
        _ => spki.is_empty(),
    }
}

// The item with this number.
#[tactic(auto, unfolding(crate::specs::Reading::listed_at))]
fn read_item<'a, H: TreeHash>(cursor: &mut Cursor<'a>, number: u64) -> Result<Item<'a>, ItemsError>
    ensures exact { Moves item_pair (listed_at H.hash number) cursor.old result cursor.new }
    ensures forward { OnOk result (length cursor.new.rest < length cursor.old.rest) }
{
    let entry = cursor.vec16()?;
    let spki = cursor.vec16()?;
    if !is_key_of::<H>(entry, spki) {
        return Err(ItemsError::BadItem(number));
    }
    Ok(Item { entry, spki })
}

// Adds the offset of an item.
fn push(offsets: &mut Vec<usize>, place: usize) -> Result<(), NoMemory>
    ensures { OnOk result (offsets.new.items ≡ offsets.old.items ++ place ∷ []) }
{
    offsets.push(place)?;
    Ok(())
}

/// Reads a file of entries: for each item the entry and the key, each after its length of two
/// bytes, up to the end. The time grows with the bytes of the file, and what is read borrows from
/// them: eight bytes of memory are taken for each item, and up to 24 while their list grows.
///
/// Errors, of which the first that is met is answered: `Short` with the offset of the entry or key
/// that doesn't fit, `BadItem` with the number of an item whose key isn't the one of its entry.
/// Entries that don't read are taken as they are. `Memory` may come instead of any answer.
pub fn read_items<'a, H: TreeHash>(
    alloc: Global,
    bytes: &'a [u8],
) -> Result<Items<'a, H>, ItemsError>
    ensures { Answers NoCapacity (items_in H.hash bytes.now) result }
{
    let mut cursor = Cursor::new(bytes);
    let mut offsets = Vec::new(alloc);
    while cursor.left() > 0 {
        let place = cursor.place();
        read_item::<H>(&mut cursor, offsets.len() as u64)?;
        push(&mut offsets, place)?;
    }
    Ok(Items::of_offsets(bytes, offsets))
}
