//! Journals that are read in windows of their disk.

use crate::readings::{End, disk_of};
use disk_core::MemDisk;
use journal_core::{OpenError, Opening};
use mtc_io::{Bytes, Memory};
use std::alloc::Global;
use std::test::Fail;

// Appends so many records with this body of so many bytes, and a closed commit byte, to a header.
fn add_records(bytes: &mut Bytes, count: u64, size: u32, body: &[u8]) -> Result<(), Memory> {
    for _ in 0..count {
        bytes.append(&[1])?;
        bytes.append_both(&size.to_be_bytes(), body)?;
    }
    bytes.append(&[0])
}

// A file of such records.
fn file_of(alloc: Global, count: u64, size: u32, body: &[u8]) -> Result<Bytes, Memory> {
    let mut bytes = Bytes::copy_of(alloc, b"mtc-journal/v1\n\0")?;
    add_records(&mut bytes, count, size, body)?;
    Ok(bytes)
}

// How many records are read, how the reading ends, and how many calls of the disk it makes.
type Read = (u64, End, u64);

// How a reading ends, of two thousand records at most.
fn read_on(opening: &mut Opening<MemDisk>) -> Option<End> {
    for _ in 0..2000 {
        match opening.next() {
            Ok(Some(_)) => {}
            Ok(None) => return Some(Ok(())),
            Err(why) => return Some(Err(why)),
        }
    }
    None
}

fn read_whole(alloc: Global, disk: MemDisk) -> Option<Read> {
    let mut opening = Opening::begin(alloc, disk).ok()?;
    let end = read_on(&mut opening);
    let count = opening.read_count();
    let made = opening.into_disk().made();
    Some((count, end?, made))
}

fn read(alloc: Global, count: u64, size: u32, failing: &[u64]) -> Result<Option<Read>, Memory> {
    let body = vec![in alloc; 7; size as usize]?;
    let bytes = file_of(alloc, count, size, &body)?;
    Ok(read_whole(alloc, disk_of(alloc, bytes, failing)?))
}

// A sync, the length and the header come first. A window has 131,094 bytes, and a failure comes at
// the record that needs it.
#[test]
fn records_are_read_in_windows(rt: HostRuntime) -> Result<(), Fail> {
    let cases: [(u64, u32, &[u64], Read); 8] = [
        (0, 1, &[], (0, Ok(()), 4)),
        (1000, 1, &[], (1000, Ok(()), 4)),
        (1, 131_072, &[], (1, Ok(()), 4)),
        (2, 131_072, &[], (2, Ok(()), 5)),
        (3, 65_536, &[], (3, Ok(()), 5)),
        (3, 65_536, &[3], (0, Err(OpenError::Failed), 4)),
        (3, 65_536, &[4], (2, Err(OpenError::Failed), 5)),
        (3, 65_536, &[5], (3, Ok(()), 5)),
    ];
    for (count, size, failing, wanted) in cases {
        assert!(rt;
            read(rt.alloc(), count, size, failing)? == Some(wanted),
            "{count} of {size}, {failing:?}"
        );
    }
    Ok(())
}
