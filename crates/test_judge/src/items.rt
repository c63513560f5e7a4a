//! Entries files as they are read, and what is wrong with changes to them.

use crate::lists::{ENTRY, KEY, entry_of, key_of, list_of, put_item, put_items};
use entry_list::{Items, ItemsError, read_items};
use mtc_io::{Bytes, Memory};
use std::alloc::Global;
use tree_core::Toy;

fn read(alloc: Global, bytes: &[u8]) -> Result<Items<'_, Toy>, ItemsError> {
    read_items::<Toy>(alloc, bytes)
}

// Whether the item at this index is that of the letter.
fn is_item(items: &Items<'_, Toy>, index: usize, letter: u8) -> bool {
    if index >= items.len() {
        return false;
    }
    let item = items.item(index);
    item.entry == entry_of(letter) && item.spki == key_of(letter)
}

// Whether the items are those of the letters.
fn are_items(letters: &str, items: &Items<'_, Toy>) -> bool {
    let mut count = 0usize;
    for letter in letters.bytes() {
        if letter != b'-' {
            if !is_item(items, count, letter) {
                return false;
            }
            count = count.saturating_add(1);
        }
    }
    items.len() == count
}

// Whether the bytes are read as the items of the letters.
fn is_list(alloc: Global, bytes: &[u8], letters: &str) -> bool {
    match read(alloc, bytes) {
        Ok(items) => are_items(letters, &items),
        Err(_) => false,
    }
}

// The file of these letters is read as their items.
fn are_read(alloc: Global, letters: &str) -> Result<bool, Memory> {
    let bytes = list_of(alloc, letters)?;
    Ok(is_list(alloc, bytes.as_slice(), letters))
}

#[test]
fn items_are_read_with_their_keys(rt: HostRuntime) {
    for letters in [
        "-",
        "0",
        "c",
        "0c234567",
        "0ckd0",
        "ccccccccccccccccc22222222222222222222",
    ] {
        assert!(rt; are_read(rt.alloc(), letters) == Ok(true), "{letters}");
    }
}

// Why the bytes are no entries file.
fn refusal(alloc: Global, bytes: &[u8]) -> Option<ItemsError> {
    read(alloc, bytes).err()
}

// The key with another hash, and the key with a byte more.
const WRONG_KEY: [u8; 44] = [
    0x30, 0x2A, 0x30, 0x05, 0x06, 0x03, 0x2B, 0x65, 0x70, 0x03, 0x21, 0x00, 0x01, 0x00, 0x00, 0x00,
    0x00, 0x00, 0x00, 0x00, 0x00, 0x00, 0x00, 0x00, 0x00, 0x00, 0x00, 0x00, 0x00, 0x00, 0x00, 0x00,
    0x00, 0x00, 0x00, 0x00, 0x00, 0x00, 0x00, 0x00, 0x00, 0x00, 0x00, 0x00,
];

const LONGER_KEY: [u8; 45] = [
    0x30, 0x2A, 0x30, 0x05, 0x06, 0x03, 0x2B, 0x65, 0x70, 0x03, 0x21, 0x00, 0x00, 0x00, 0x00, 0x00,
    0x00, 0x00, 0x00, 0x00, 0x00, 0x00, 0x00, 0x00, 0x00, 0x00, 0x00, 0x00, 0x00, 0x00, 0x00, 0x00,
    0x00, 0x00, 0x00, 0x00, 0x00, 0x00, 0x00, 0x00, 0x00, 0x00, 0x00, 0x00, 0x00,
];

// An item that is wrong: `n` is the null entry with a key, `r` one that is no entry, with a key; of
// the others the entry is the certificate's: `x` without its key, `w` with one of another hash, `t`
// with a byte more, `e` with both exchanged.
fn wrong_item(letter: u8) -> (&'static [u8], &'static [u8]) {
    match letter {
        b'n' => (&[0, 0], &KEY),
        b'r' => (&ENTRY[..131], &KEY),
        b'w' => (&ENTRY, &WRONG_KEY),
        b't' => (&ENTRY, &LONGER_KEY),
        b'e' => (&KEY, &ENTRY),
        _ => (&ENTRY, &[]),
    }
}

// The items of the letters before a wrong one, the wrong one, and those after it.
fn with_wrong(alloc: Global, before: &str, wrong: u8, following: &str) -> Result<Bytes, Memory> {
    let (entry, key) = wrong_item(wrong);
    let mut bytes = list_of(alloc, before)?;
    put_item(&mut bytes, entry, key)?;
    put_items(&mut bytes, following)?;
    Ok(bytes)
}

// Items before a wrong one, the wrong one, and the items after it.
const WRONG: &str = "\
- n - 0
- x c 0
- e - 0
0 w - 1
0c x 234 2
0c n - 2
0c r 2 2
0cc t - 3
02 e c 2
";

// Whether the wrong item of a line is reported by its number.
fn is_reported(alloc: Global, line: &str) -> Option<bool> {
    let (before, rest) = line.split_once(' ')?;
    let (wrong, rest) = rest.split_once(' ')?;
    let (following, number) = rest.split_once(' ')?;
    let number = number.parse::<u64>().ok()?;
    let bytes = with_wrong(alloc, before, wrong.bytes().next()?, following).ok()?;
    Some(refusal(alloc, bytes.as_slice()) == Some(ItemsError::BadItem(number)))
}

#[test]
fn a_wrong_key_is_reported_by_its_item(rt: HostRuntime) {
    let mut count = 0u64;
    for line in WRONG.lines() {
        assert!(rt; is_reported(rt.alloc(), line) == Some(true), "{line}");
        count = count.saturating_add(1);
    }
    assert!(rt; count == 9);
}

// A file of the null entry, the certificate's and a byte has 6, 180 and 5 bytes for its items. What
// is left of so many bytes doesn't fit from this offset on.
const CUT: &str = "\
1 0
3 0
4 4
5 4
7 6
139 6
140 140
185 140
187 186
190 189
";

// What is wrong with the first bytes of that file.
fn refusal_of_cut(alloc: Global, count: usize) -> Option<ItemsError> {
    let bytes = list_of(alloc, "0c2").ok()?;
    refusal(alloc, bytes.as_slice().get(..count).unwrap_or(&[]))
}

// Whether what doesn't fit is reported by the offset of a line.
fn is_short(alloc: Global, line: &str) -> Option<bool> {
    let (count, offset) = line.split_once(' ')?;
    let wanted = ItemsError::Short(offset.parse::<usize>().ok()?);
    Some(refusal_of_cut(alloc, count.parse::<usize>().ok()?) == Some(wanted))
}

#[test]
fn an_item_that_does_not_fit_is_reported_by_its_offset(rt: HostRuntime) {
    let mut count = 0u64;
    for line in CUT.lines() {
        assert!(rt; is_short(rt.alloc(), line) == Some(true), "{line}");
        count = count.saturating_add(1);
    }
    assert!(rt; count == 10);
}

// What is reported of an item with no key, and a byte after it that is no item.
fn first_of_two(alloc: Global) -> Option<ItemsError> {
    let mut bytes = with_wrong(alloc, "0", b'x', "-").ok()?;
    bytes.append(&[0]).ok()?;
    refusal(alloc, bytes.as_slice())
}

#[test]
fn the_first_fault_of_a_list_is_reported(rt: HostRuntime) {
    assert!(rt; first_of_two(rt.alloc()) == Some(ItemsError::BadItem(1)));
}
