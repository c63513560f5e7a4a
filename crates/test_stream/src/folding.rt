//! The hashes and the item that one pass over a file of entries gives, and its refusals.

use entry_list::ItemsError;
use entry_stream::{Both, ItemAt, RangeHash, fold_items};
use hex::FromHex;
use mtc_io::{Bytes, MemSource, Memory, ReadError};
use std::alloc::Global;
use std::test::Fail;
use tree_core::Sha;
use tree_peaks::Peaks;

// The eight entries that implementations of RFC 6962 and RFC 9162 are tried on, without keys.
const LIST: [u8; 66] = [
    0, 0, 0, 0, 0, 1, 0, 0, 0, 0, 1, 0x10, 0, 0, 0, 2, 0x20, 0x21, 0, 0, 0, 2, 0x30, 0x31, 0, 0, 0,
    4, 0x40, 0x41, 0x42, 0x43, 0, 0, 0, 8, 0x50, 0x51, 0x52, 0x53, 0x54, 0x55, 0x56, 0x57, 0, 0, 0,
    16, 0x60, 0x61, 0x62, 0x63, 0x64, 0x65, 0x66, 0x67, 0x68, 0x69, 0x6a, 0x6b, 0x6c, 0x6d, 0x6e,
    0x6f, 0, 0,
];

// The nodes over them, named by their first entry and the one after their last.
const N0_0: &str = "e3b0c44298fc1c149afbf4c8996fb92427ae41e4649b934ca495991b7852b855";

const N0_6: &str = "76e67dadbcdf1e10e1b74ddc608abd2f98dfb16fbce75277b5232a127f2087ef";

const N4_6: &str = "0ebc5d3437fbe2db158b9f126a1d118e308181031d0a949f8dededebc558ef6a";

const N4_8: &str = "6b47aaf29ee3c2af9af889bc1fb9254dabd31177f16232dd6aab035ca39bf6e4";

const N6_8: &str = "ca854ea128ed050b41b35ffc1b87b8eb2bde461e9e3b5596ece6b9d5975a0ae0";

const N0_8: &str = "5dc9da79a70659a9ad559cb701ded9a2ab9d823aad2f4960cfe370eff4604328";

fn is_hash(hash: &[u8; 32], digits: &str) -> bool {
    match <[u8; 32] as FromHex>::from_hex(digits) {
        Ok(wanted) => wanted == *hash,
        Err(_) => false,
    }
}

fn source(alloc: Global, bytes: &[u8], failing: &[u64]) -> Result<MemSource, Memory> {
    let bytes = Bytes::copy_of(alloc, bytes)?;
    Ok(MemSource::new(bytes, Vec::from_slice(alloc, failing)?))
}

// The tree hash of the list, and that of a part of it.
fn has_hashes(alloc: Global, part: (u64, u64), root: &str, range: &str) -> Result<bool, Memory> {
    let mut source = source(alloc, &LIST, &[])?;
    let mut fold: Both<Peaks<Sha>, RangeHash<Sha>> = Both {
        first: Peaks::new(),
        second: RangeHash::new(part.0, part.1),
    };
    let read = fold_items::<Sha, _, _>(alloc, &mut source, 66, &mut fold);
    let counted = read == Ok(Ok(8)) && fold.first.size() == 8 && fold.second.len() == 8;
    Ok(counted && is_hash(&fold.first.root(), root) && is_hash(&fold.second.root(), range))
}

#[test]
fn one_pass_gives_the_hash_of_a_list_and_of_a_part(rt: HostRuntime) -> Result<(), Fail> {
    let cases = [
        ((0, 8), N0_8),
        ((0, 6), N0_6),
        ((4, 6), N4_6),
        ((4, 8), N4_8),
        ((6, 100), N6_8),
        ((8, 9), N0_0),
        ((100, 200), N0_0),
        ((4, 4), N0_0),
    ];
    for (part, range) in cases {
        assert!(rt; has_hashes(rt.alloc(), part, N0_8, range)?, "{part:?}");
    }
    Ok(())
}

// The entry at an index is this one, without a key.
fn has_entry(alloc: Global, index: u64, entry: &[u8]) -> Result<bool, Memory> {
    let mut source = source(alloc, &LIST, &[])?;
    let mut fold = ItemAt::new(alloc, index);
    let read = fold_items::<Sha, _, _>(alloc, &mut source, 66, &mut fold);
    Ok(read == Ok(Ok(8)) && fold.entry() == entry && fold.spki().is_empty())
}

#[test]
fn one_pass_gives_the_item_at_an_index(rt: HostRuntime) -> Result<(), Fail> {
    assert!(rt; has_entry(rt.alloc(), 0, b"")?);
    assert!(rt; has_entry(rt.alloc(), 3, b"\x20\x21")?);
    assert!(rt; has_entry(rt.alloc(), 7, &LIST[48..64])?);
    assert!(rt; has_entry(rt.alloc(), 8, b"")?);
    Ok(())
}

// How a file is read whose calls with these numbers fail, and what is left of it then.
type Read = (Result<Result<u64, ItemsError>, ReadError>, u64);

fn read(alloc: Global, bytes: &[u8], failing: &[u64], limit: u64) -> Result<Read, Memory> {
    let mut source = source(alloc, bytes, failing)?;
    let mut peaks: Peaks<Sha> = Peaks::new();
    let read = fold_items::<Sha, _, _>(alloc, &mut source, limit, &mut peaks);
    Ok((read, peaks.size()))
}

#[test]
fn a_file_is_refused_with_its_first_fault(rt: HostRuntime) -> Result<(), Fail> {
    let cases: [(&[u8], u64, Read); 9] = [
        (b"", 0, (Ok(Ok(0)), 0)),
        (b"\x00\x00", 9, (Ok(Err(ItemsError::Short(2))), 0)),
        (b"\x00", 9, (Ok(Err(ItemsError::Short(0))), 0)),
        (b"\x00\x01", 9, (Ok(Err(ItemsError::Short(0))), 0)),
        (b"\x00\x01\x07\x00", 9, (Ok(Err(ItemsError::Short(3))), 0)),
        (
            b"\x00\x01\x07\x00\x00\x00\x01",
            9,
            (Ok(Err(ItemsError::Short(5))), 1),
        ),
        (
            b"\x00\x00\x00\x00\x00\x00\x00\x01\x07",
            9,
            (Ok(Err(ItemsError::BadItem(1))), 1),
        ),
        (
            b"\x00\x00\x00\x00\x00\x00\x00\x01\x07",
            8,
            (Err(ReadError::TooLong), 0),
        ),
        (b"\x00\x00\x00\x00", 3, (Err(ReadError::TooLong), 0)),
    ];
    for (bytes, limit, wanted) in cases {
        assert!(rt; read(rt.alloc(), bytes, &[], limit)? == wanted, "{bytes:?}");
    }
    Ok(())
}

// A failing read is reported also after a fault of the file.
#[test]
fn a_failing_read_is_reported(rt: HostRuntime) -> Result<(), Fail> {
    let bad = b"\x00\x00\x00\x01\x07";
    let alloc = rt.alloc();
    assert!(rt; read(alloc, &LIST, &[0], 66)? == (Err(ReadError::Failed), 0));
    assert!(rt; read(alloc, &LIST, &[1], 66)? == (Err(ReadError::Failed), 8));
    assert!(rt; read(alloc, &LIST, &[2], 66)? == (Ok(Ok(8)), 8));
    assert!(rt; read(alloc, bad, &[1], 66)? == (Err(ReadError::Failed), 0));
    assert!(rt; read(alloc, bad, &[2], 66)? == (Ok(Err(ItemsError::BadItem(0))), 0));
    Ok(())
}
