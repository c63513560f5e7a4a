//! Nodes in tiles, over a device in memory: what they are, and what a bad file and a device that
//! fails give.

use crate::keeping::node;
use disk_core::MemDisk;
use frame_pool::{Pool, TileKey};
use mtc_io::{Bytes, Failed, Memory};
use std::alloc::Global;
use std::test::Fail;
use tile_store::{TileError, Tiles};
use tree_core::{Sha, leaf};
use tree_proofs::{Listed, Nodes};

type MemTiles = Tiles<Sha, MemDisk>;

// The leaf hash of an index.
fn leaf_at(place: u64) -> [u8; 32] {
    leaf::<Sha>(&place.to_be_bytes())
}

// A device that holds these bytes, and fails the calls of these numbers.
fn device(alloc: Global, bytes: &[u8], failing: &[u64]) -> Result<MemDisk, Memory> {
    let failing = Vec::from_slice(alloc, failing)?;
    Ok(MemDisk::over(alloc, Bytes::copy_of(alloc, bytes)?, failing))
}

// A store without leaves, with so many frames but at least one.
fn empty(alloc: Global, disk: MemDisk, frames: u8) -> Result<MemTiles, Memory> {
    let pool = Pool::new(alloc, frames.max(1) as usize)?;
    Ok(Tiles::new(alloc, disk, pool))
}

fn push(tiles: &mut MemTiles, place: u64) -> Result<(), Memory> {
    if tiles.size() < (1 << 32) - 1 {
        tiles.push(&leaf_at(place))?;
    }
    Ok(())
}

fn fill(tiles: &mut MemTiles, size: u64) -> Result<(), Memory> {
    for place in 0..size {
        push(tiles, place)?;
    }
    Ok(())
}

// A store of so many leaves.
fn grown(alloc: Global, disk: MemDisk, frames: u8, size: u64) -> Result<MemTiles, Memory> {
    let mut tiles = empty(alloc, disk, frames)?;
    fill(&mut tiles, size)?;
    Ok(tiles)
}

// A store of so many leaves with one frame, over a device that holds these bytes and fails the
// calls of these numbers.
fn over(alloc: Global, bytes: &[u8], failing: &[u64], size: u64) -> Result<MemTiles, Memory> {
    grown(alloc, device(alloc, bytes, failing)?, 1, size)
}

// What storing and adopting give; none where the store has fewer leaves.
fn stored(tiles: &mut MemTiles, size: u64) -> Option<Result<(), Failed>> {
    if size > tiles.size() {
        return None;
    }
    Some(tiles.store(size))
}

fn adopted(tiles: &mut MemTiles, size: u64) -> Option<Result<(), TileError>> {
    if size % 256 != 0 || size > tiles.size() {
        return None;
    }
    Some(tiles.adopt(size))
}

fn is_stored(tiles: &mut MemTiles, size: u64) -> bool {
    stored(tiles, size) == Some(Ok(()))
}

fn is_adopted(tiles: &mut MemTiles, size: u64) -> bool {
    adopted(tiles, size) == Some(Ok(()))
}

fn disk_of(tiles: MemTiles) -> MemDisk {
    tiles.into_disk()
}

// The device to which the tiles that so many leaves fill were stored; none where they weren't.
fn stored_disk(alloc: Global, size: u64) -> Result<Option<MemDisk>, Memory> {
    let mut tiles = over(alloc, &[], &[], size)?;
    let stored = is_stored(&mut tiles, size);
    let disk = disk_of(tiles);
    Ok(if stored { Some(disk) } else { None })
}

// The file of these tiles; no bytes where it can't be made.
fn file(alloc: Global, size: u64) -> Result<Bytes, Memory> {
    match stored_disk(alloc, size)? {
        Some(disk) => Bytes::copy_of(alloc, disk.bytes()),
        None => Ok(Bytes::new(alloc)),
    }
}

// How long this file is.
fn stored_length(alloc: Global, size: u64) -> Result<Option<usize>, Memory> {
    match stored_disk(alloc, size)? {
        Some(disk) => Ok(Some(disk.bytes().len())),
        None => Ok(None),
    }
}

// How many leaf hashes the bytes begin with.
fn leaves_in(bytes: &[u8]) -> u64 {
    let mut count = 0u64;
    for hash in bytes.chunks(32) {
        if hash != leaf_at(count).as_slice() {
            return count;
        }
        count = count.saturating_add(1);
    }
    count
}

#[test]
fn full_tiles_are_stored(rt: HostRuntime) -> Result<(), Fail> {
    for (size, length) in [
        (0, 0),
        (255, 0),
        (256, 8192),
        (257, 8192),
        (511, 8192),
        (512, 16_384),
    ] {
        assert!(rt; stored_length(rt.alloc(), size)? == Some(length), "{size}");
    }
    let bytes = file(rt.alloc(), 512)?;
    assert!(rt; leaves_in(bytes.as_slice()) == 512);
    Ok(())
}

// So many leaves, whose nodes are rebuilt from their hashes.
fn leaves(alloc: Global, size: u64) -> Result<Listed<Sha>, Memory> {
    let mut listed = Listed::new(alloc);
    for place in 0..size {
        listed.push(&leaf_at(place))?;
    }
    Ok(listed)
}

// Whether both have the same node.
fn agree_on(tiles: &mut MemTiles, listed: &mut Listed<Sha>, level: u32, place: u64) -> bool {
    let found = node(tiles, level, place);
    found.is_some() && found == node(listed, level, place)
}

// Whether both have the same nodes.
fn agree(tiles: &mut MemTiles, listed: &mut Listed<Sha>, size: u64) -> bool {
    for level in 0..11 {
        for place in 0..size >> level {
            if !agree_on(tiles, listed, level, place) {
                return false;
            }
        }
    }
    true
}

// Whether both have the same nodes before the first tiles are adopted, and after it.
fn stay_the_same(tiles: &mut MemTiles, listed: &mut Listed<Sha>, size: u64, tiled: u64) -> bool {
    is_stored(tiles, tiled)
        && agree(tiles, listed, size)
        && is_adopted(tiles, tiled)
        && agree(tiles, listed, size)
}

// Whether this is so of a store of so many leaves with so many frames.
fn is_listed(alloc: Global, frames: u8, size: u64, tiled: u64) -> Result<bool, Memory> {
    let mut listed = leaves(alloc, size)?;
    let mut tiles = grown(alloc, device(alloc, &[], &[])?, frames, size)?;
    Ok(stay_the_same(&mut tiles, &mut listed, size, tiled))
}

#[test]
fn adopted_nodes_are_those_of_the_leaves(rt: HostRuntime) -> Result<(), Fail> {
    for (frames, size, tiled) in [
        (1, 255, 0),
        (1, 256, 256),
        (1, 257, 256),
        (2, 511, 256),
        (1, 512, 512),
        (3, 1025, 1024),
    ] {
        assert!(rt; is_listed(rt.alloc(), frames, size, tiled)?, "{size}");
    }
    Ok(())
}

fn lengthen(file: &mut Vec<u8>, count: usize) -> Result<(), Memory> {
    for _more in 0..count {
        file.push(0)?;
    }
    Ok(())
}

fn flip(file: &mut [u8], offset: usize) {
    if let Some(byte) = file.get_mut(offset) {
        *byte ^= 1;
    }
}

// A device with the bytes and a change: they end after so many, there are so many more, or the byte
// at an offset is another one.
fn changed(alloc: Global, bytes: &[u8], change: &str, number: usize) -> Result<MemDisk, Memory> {
    let mut file = Vec::from_slice(alloc, bytes)?;
    match change {
        "cut" => file.truncate(number),
        "longer" => lengthen(&mut file, number)?,
        _ => flip(file.as_mut_slice(), number),
    }
    Ok(MemDisk::over(alloc, Bytes::from_vec(file), Vec::new(alloc)))
}

// That the file has not the tile of level 0 at the index of a word, or that it has all.
fn reported(word: &str) -> Option<Result<(), TileError>> {
    if word == "-" {
        return Some(Ok(()));
    }
    let place = word.parse::<u64>().ok()?;
    Some(Err(TileError::BadTile { level: 0, place }))
}

fn number(word: Option<&str>) -> Option<usize> {
    word?.parse::<usize>().ok()
}

// What adopting the tiles of 512 leaves is answered over such a device.
fn answered(
    alloc: Global,
    bytes: &[u8],
    change: &str,
    number: usize,
) -> Result<Option<Result<(), TileError>>, Memory> {
    let mut tiles = grown(alloc, changed(alloc, bytes, change, number)?, 1, 512)?;
    Ok(adopted(&mut tiles, 512))
}

// Whether the file is reported as a line says.
fn is_reported(alloc: Global, bytes: &[u8], line: &str) -> Result<bool, Memory> {
    let mut words = line.split(' ');
    let change = words.next().unwrap_or("");
    let Some(number) = number(words.next()) else {
        return Ok(false);
    };
    let wanted = reported(words.next().unwrap_or(""));
    Ok(wanted.is_some() && answered(alloc, bytes, change, number)? == wanted)
}

// A change of the file of 512 leaves, its number, and the index of the first bad tile.
const CHANGES: &str = "\
cut 0 0
cut 8191 0
cut 8192 1
cut 16383 1
cut 16384 -
longer 1 -
longer 8192 -
byte 0 0
byte 8191 0
byte 8192 1
byte 16383 1";

#[test]
fn bad_files_are_refused_with_the_first_bad_tile(rt: HostRuntime) -> Result<(), Fail> {
    let bytes = file(rt.alloc(), 512)?;
    let mut count = 0u64;
    for line in CHANGES.lines() {
        assert!(rt; is_reported(rt.alloc(), bytes.as_slice(), line)?, "{line}");
        count = count.saturating_add(1);
    }
    assert!(rt; count == 11);
    Ok(())
}

// Whether storing fails, or not, as is wanted.
fn stores(tiles: &mut MemTiles, fails: bool) -> bool {
    stored(tiles, 512) == Some(if fails { Err(Failed) } else { Ok(()) })
}

// Whether one of two storings fails over a device of which this call fails, and its file is then
// this one. A storing syncs, writes two tiles and syncs; the fifth call is of the second.
fn storing_fails_at(alloc: Global, call: u64, file: &[u8]) -> Result<bool, Memory> {
    let mut tiles = over(alloc, &[], &[call], 512)?;
    let reported = stores(&mut tiles, call < 4) && stores(&mut tiles, call >= 4);
    Ok(disk_of(tiles).bytes() == file && reported)
}

#[test]
fn a_failed_storing_is_made_up_for(rt: HostRuntime) -> Result<(), Fail> {
    let wanted = file(rt.alloc(), 512)?;
    for call in 0..5 {
        assert!(rt;
            storing_fails_at(rt.alloc(), call, wanted.as_slice())?,
            "{call}"
        );
    }
    Ok(())
}

// Whether adopting fails over a device of which this call fails, and not a second time. It asks for
// the length and reads two tiles.
fn adopting_fails_at(alloc: Global, call: u64, file: &[u8]) -> Result<bool, Memory> {
    let mut tiles = over(alloc, file, &[call], 512)?;
    let first = if call < 3 {
        Err(TileError::Failed)
    } else {
        Ok(())
    };
    Ok(adopted(&mut tiles, 512) == Some(first) && is_adopted(&mut tiles, 512))
}

#[test]
fn a_failed_adoption_leaves_the_store_as_it_was(rt: HostRuntime) -> Result<(), Fail> {
    let bytes = file(rt.alloc(), 512)?;
    for call in 0..4 {
        assert!(rt;
            adopting_fails_at(rt.alloc(), call, bytes.as_slice())?,
            "{call}"
        );
    }
    Ok(())
}

// The tile of level 0 at an index.
fn tile(place: u64) -> TileKey {
    TileKey { level: 0, place }
}

fn is_held(tiles: &MemTiles, key: TileKey) -> bool {
    tiles.held_tile(key).is_some()
}

fn has_leaf(tiles: &mut MemTiles, place: u64) -> bool {
    node(tiles, 0, place) == Some(Ok(leaf_at(place)))
}

// Whether no frame holds a tile before the two are adopted, and right after it.
fn is_adopted_without_frames(tiles: &mut MemTiles) -> bool {
    has_leaf(tiles, 0)
        && !is_held(tiles, tile(0))
        && is_adopted(tiles, 512)
        && !is_held(tiles, tile(0))
        && !is_held(tiles, tile(1))
}

// Whether a frame holds the first tile once a leaf of it was asked for, and gives its nodes.
fn gives_out_of_a_frame(tiles: &mut MemTiles, bytes: &[u8]) -> bool {
    has_leaf(tiles, 1)
        && tiles.held_tile(tile(0)) == bytes.get(..8192)
        && has_leaf(tiles, 2)
        && matches!(node(tiles, 3, 31), Some(Ok(_)))
}

// Whether a leaf of the second tile fails, and is then read.
fn reads_the_second(tiles: &mut MemTiles) -> bool {
    node(tiles, 0, 256) == Some(Err(Failed))
        && !is_held(tiles, tile(1))
        && has_leaf(tiles, 256)
        && is_held(tiles, tile(1))
}

// The calls are the length, the two tiles, and then the first of them once more. The next one
// fails, which isn't made for a node of a held tile.
#[test]
fn an_adopted_node_is_read_through_a_frame(rt: HostRuntime) -> Result<(), Fail> {
    let bytes = file(rt.alloc(), 512)?;
    let mut tiles = over(rt.alloc(), bytes.as_slice(), &[4], 512)?;
    assert!(rt; is_adopted_without_frames(&mut tiles));
    assert!(rt; gives_out_of_a_frame(&mut tiles, bytes.as_slice()));
    assert!(rt; reads_the_second(&mut tiles));
    Ok(())
}

// Whether a byte changed in the tile of level 1 is reported, if that tile is adopted.
fn gives_the_next_level(alloc: Global, bytes: &[u8]) -> Result<bool, Memory> {
    let mut tiles = grown(alloc, changed(alloc, bytes, "byte", 256 * 8192)?, 1, 65_536)?;
    let wanted = Err(TileError::BadTile { level: 1, place: 0 });
    Ok(adopted(&mut tiles, 65_536) == Some(wanted) && is_adopted(&mut tiles, 65_280))
}

#[test]
fn a_tile_of_the_next_level_is_compared(rt: HostRuntime) -> Result<(), Fail> {
    let bytes = file(rt.alloc(), 65_536)?;
    assert!(rt; bytes.len() == 257 * 8192);
    assert!(rt; gives_the_next_level(rt.alloc(), bytes.as_slice())?);
    Ok(())
}

const ABOVE: TileKey = TileKey { level: 1, place: 0 };

// How many of some nodes of the next level are those of the leaves and come out of its tile.
fn out_of_the_tile_above(tiles: &mut MemTiles, listed: &mut Listed<Sha>) -> u64 {
    let mut count = 0u64;
    for (level, place) in [(8, 0), (8, 255), (9, 77), (12, 15), (15, 1)] {
        if agree_on(tiles, listed, level, place) && is_held(tiles, ABOVE) {
            count = count.saturating_add(1);
        }
    }
    count
}

// Whether the node below them is that of the leaves, and its tile takes the frame.
fn takes_the_frame(tiles: &mut MemTiles, listed: &mut Listed<Sha>) -> bool {
    agree_on(tiles, listed, 7, 511) && !is_held(tiles, ABOVE)
}

#[test]
fn nodes_of_the_next_level_come_out_of_its_tile(rt: HostRuntime) -> Result<(), Fail> {
    let bytes = file(rt.alloc(), 65_536)?;
    let mut tiles = over(rt.alloc(), bytes.as_slice(), &[], 65_536)?;
    let mut listed = leaves(rt.alloc(), 65_536)?;
    assert!(rt; is_adopted(&mut tiles, 65_536));
    assert!(rt; out_of_the_tile_above(&mut tiles, &mut listed) == 5);
    assert!(rt; takes_the_frame(&mut tiles, &mut listed));
    Ok(())
}
