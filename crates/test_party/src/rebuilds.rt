//! Tiles of logs that are written again, over a disk whose file is lost, cut or changed.

use crate::journals::{disk, holds, left, no_bytes, open_over, reason, size_or_reason};
use crate::tiles::{calls_from, files, log_of};
use disk_core::MemDisk;
use frame_pool::Pool;
use issuance_log::{LogOpenError, Rebuilt, rebuild_tiles};
use mtc_io::{Bytes, Memory};
use std::alloc::Global;
use std::test::Fail;
use tile_store::TileError;
use tree_core::Sha;

type MemRebuilt = Rebuilt<MemDisk, MemDisk>;

// What comes of writing the tiles of the log in a journal again.
fn rebuilt(alloc: Global, journal: &MemDisk, tiles: MemDisk) -> Result<MemRebuilt, Memory> {
    let pool = Pool::new(alloc, 1)?;
    let journal = journal.open_copy()?;
    Ok(rebuild_tiles::<Sha, MemDisk, MemDisk>(alloc, journal, tiles, pool))
}

fn lengthen(file: &mut Vec<u8>, count: usize) -> Result<(), Memory> {
    for _more in 0..count {
        file.push(7)?;
    }
    Ok(())
}

fn flip(file: &mut [u8], offset: usize) {
    if let Some(byte) = file.get_mut(offset) {
        *byte ^= 1;
    }
}

// The bytes with a change: they end after so many, there are so many more, or the byte at an offset
// is another one.
fn changed(alloc: Global, bytes: &[u8], line: &str) -> Result<Option<Bytes>, Memory> {
    let Some((word, number)) = line.split_once(' ') else {
        return Ok(None);
    };
    let Ok(number) = number.parse::<usize>() else {
        return Ok(None);
    };
    let mut file = Vec::from_slice(alloc, bytes)?;
    match word {
        "cut" => file.truncate(number),
        "longer" => lengthen(&mut file, number)?,
        _ => flip(file.as_mut_slice(), number),
    }
    Ok(Some(Bytes::from_vec(file)))
}

// Whether both disks are as they are wanted, and the log is opened over them.
fn are_whole(alloc: Global, made: MemRebuilt, journal: &MemDisk, wanted: &[u8]) -> bool {
    let same = holds(&made.disk, journal.bytes()) && holds(&made.tiles, wanted);
    size_or_reason(open_over(alloc, made.disk, made.tiles)) == Ok(512) && same
}

// Whether the tiles of 512 entries are written again over a file with this change, and what follows
// them stays.
fn is_made_whole(
    alloc: Global,
    journal: &MemDisk,
    tiles: &MemDisk,
    line: &str,
) -> Result<bool, Memory> {
    let Some(file) = changed(alloc, tiles.bytes(), line)? else {
        return Ok(false);
    };
    let mut wanted = Bytes::copy_of(alloc, tiles.bytes())?;
    wanted.append(file.as_slice().get(16_384..).unwrap_or(&[]))?;
    let made = rebuilt(alloc, journal, disk(alloc, file.as_slice(), &[])?)?;
    Ok(made.answer == Ok(512) && are_whole(alloc, made, journal, wanted.as_slice()))
}

// Changes of the file of 512 entries.
const CHANGES: &str = "\
cut 0
cut 1
cut 8191
cut 8192
cut 16383
cut 16384
longer 1
longer 9000
byte 0
byte 8191
byte 8192
byte 16383";

#[test]
fn tiles_are_written_again(rt: HostRuntime) -> Result<(), Fail> {
    let (journal, tiles) = files(rt.alloc(), 512)?.ok_or("refused")?;
    let mut count = 0u64;
    for line in CHANGES.lines() {
        assert!(rt;
            is_made_whole(rt.alloc(), &journal, &tiles, line)?,
            "{line}"
        );
        count = count.saturating_add(1);
    }
    assert!(rt; count == 12);
    Ok(())
}

// The file of the tiles, whose second tile is changed and whose calls from this one on fail.
fn failing_from(alloc: Global, tiles: &MemDisk, call: u64) -> Result<MemDisk, Memory> {
    let mut file = Vec::from_slice(alloc, tiles.bytes())?;
    flip(file.as_mut_slice(), 9000);
    let failing = calls_from(alloc, call, 50)?;
    Ok(MemDisk::over(alloc, Bytes::from_vec(file), failing))
}

// Whether what a crash leaves of a file has the first tile of another one.
fn begins_with(file: &MemDisk, wanted: &[u8], pick: u64) -> Result<bool, Memory> {
    Ok(left(file, pick)?.bytes().get(..8192) == wanted.get(..8192))
}

// Whether it has this tile whatever a crash leaves, by some picks.
fn keeps_the_first(file: &MemDisk, wanted: &[u8]) -> Result<bool, Memory> {
    for pick in 0..8 {
        if !begins_with(file, wanted, pick)? {
            return Ok(false);
        }
    }
    Ok(true)
}

// How many calls fail before the tiles are written again, where the first of them stays.
fn failures(alloc: Global, journal: &MemDisk, tiles: &MemDisk) -> Result<Option<u64>, Memory> {
    for call in 0..20 {
        let made = rebuilt(alloc, journal, failing_from(alloc, tiles, call)?)?;
        let kept = keeps_the_first(&made.tiles, tiles.bytes())?;
        match made.answer {
            Ok(512) if kept => return Ok(Some(call)),
            Err(LogOpenError::Tile(TileError::Failed)) if kept => {}
            _ => return Ok(None),
        }
    }
    Ok(None)
}

// The length is asked for and both tiles are read, where their record is read and after the last
// one; the file is synced, the second tile is written, and it is synced.
#[test]
fn each_call_of_writing_again_may_fail(rt: HostRuntime) -> Result<(), Fail> {
    let (journal, tiles) = files(rt.alloc(), 512)?.ok_or("refused")?;
    assert!(rt; failures(rt.alloc(), &journal, &tiles)? == Some(9));
    Ok(())
}

// What is answered for a log of so many entries without tiles, over a file that fails each call,
// and whether the file is as it was.
fn without_tiles(alloc: Global, size: u64) -> Result<Option<(u64, bool)>, Memory> {
    let Some(journal) = log_of(alloc, size)? else {
        return Ok(None);
    };
    let tiles = MemDisk::over(
        alloc,
        Bytes::copy_of(alloc, b"any")?,
        calls_from(alloc, 0, 50)?,
    );
    let made = rebuilt(alloc, &journal, tiles)?;
    let kept = holds(&made.tiles, b"any") && holds(&made.disk, journal.bytes());
    Ok(made.answer.ok().map(|size| (size, kept)))
}

#[test]
fn nothing_is_written_without_a_size_of_tiles(rt: HostRuntime) -> Result<(), Fail> {
    assert!(rt; without_tiles(rt.alloc(), 1)? == Some((0, true)));
    assert!(rt; without_tiles(rt.alloc(), 300)? == Some((0, true)));
    Ok(())
}

// Whether a journal that ends after so many bytes is refused as an opening of it is.
fn is_refused_alike(alloc: Global, journal: &MemDisk, count: usize) -> Result<bool, Memory> {
    let bytes = journal.bytes().get(..count).unwrap_or(&[]);
    let opening = open_over(alloc, disk(alloc, bytes, &[])?, no_bytes(alloc));
    let made = rebuilt(alloc, &disk(alloc, bytes, &[])?, no_bytes(alloc))?;
    match opening {
        Ok(_log) => Ok(false),
        Err(refused) => Ok(made.answer == Err(reason(refused)) && holds(&made.tiles, &[])),
    }
}

#[test]
fn a_bad_journal_is_refused(rt: HostRuntime) -> Result<(), Fail> {
    let (journal, _tiles) = files(rt.alloc(), 256)?.ok_or("refused")?;
    for count in [0, 15, 16, 20, 40, 500] {
        assert!(rt; is_refused_alike(rt.alloc(), &journal, count)?, "{count}");
    }
    Ok(())
}
