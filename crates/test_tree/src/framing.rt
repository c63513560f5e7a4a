//! Frames, their keys, their pins and their bytes, call by call.

use frame_pool::{Pool, Slot, TileKey};
use mtc_io::Memory;
use std::alloc::Global;
use std::test::Fail;

// The tile of level 0 at an index.
fn tile(place: u64) -> TileKey {
    TileKey { level: 0, place }
}

// The slot of a new claim; none where the key is held or every frame has a pin.
fn claim(pool: &mut Pool, key: TileKey) -> Option<Slot> {
    if pool.find(key).is_some() || pool.unpinned() == 0 {
        return None;
    }
    Some(pool.claim(key))
}

fn pin(pool: &mut Pool, key: TileKey) -> bool {
    let Some(slot) = pool.find(key) else {
        return false;
    };
    pool.pin(slot);
    true
}

fn unpin(pool: &mut Pool, key: TileKey) -> bool {
    let Some(slot) = pool.find(key) else {
        return false;
    };
    pool.unpin(slot);
    true
}

fn release(pool: &mut Pool, key: TileKey) -> bool {
    let Some(slot) = pool.find(key) else {
        return false;
    };
    pool.unpin(slot);
    pool.release(slot);
    true
}

fn find(pool: &Pool, key: TileKey) -> Option<Slot> {
    pool.find(key)
}

fn unpinned(pool: &Pool) -> u64 {
    pool.unpinned() as u64
}

// Whether the pool does and answers what is asked.
fn answers(pool: &mut Pool, ask: &str, number: u64, slot: Option<Slot>) -> bool {
    match ask {
        "claim" => slot.is_some() && claim(pool, tile(number)) == slot,
        "pin" => pin(pool, tile(number)),
        "unpin" => unpin(pool, tile(number)),
        "release" => release(pool, tile(number)),
        "held" => find(pool, tile(number)) == slot,
        "free" => unpinned(pool) == number,
        _ => false,
    }
}

// The slot that a word names; none where there is no word.
fn slot_of(word: Option<&str>) -> Option<Slot> {
    Some(Slot(word?.parse::<u32>().ok()?))
}

// Whether the pool does and answers what a line asks.
fn does(pool: &mut Pool, line: &str) -> bool {
    let mut words = line.split(' ');
    let ask = words.next().unwrap_or("");
    let Ok(number) = words.next().unwrap_or("").parse::<u64>() else {
        return false;
    };
    answers(pool, ask, number, slot_of(words.next()))
}

// How many lines of a script a pool follows.
fn followed(pool: &mut Pool, script: &str) -> u64 {
    let mut count = 0u64;
    for line in script.lines() {
        if !does(pool, line) {
            return count;
        }
        count = count.saturating_add(1);
    }
    count
}

// How many lines of a script a new pool of so many frames follows.
fn followed_by_new(alloc: Global, frames: usize, script: &str) -> Result<u64, Memory> {
    if frames == 0 || frames > 65_536 {
        return Ok(0);
    }
    let mut pool = Pool::new(alloc, frames)?;
    Ok(followed(&mut pool, script))
}

// Scripts of lines about the tile of level 0 at an index: claim a frame for it, which is that of
// this slot; pin its frame, take the pin away, make the frame empty; its frame is that of this
// slot, or there is none. And: so many frames have no pin. Here for one frame.
const ONE: &str = "\
free 1
claim 7 0
held 7 0
release 7
claim 8 0
held 7";

// The least empty frame first, and then the one that was claimed first.
const OLDEST: &str = "\
claim 1 0
claim 2 1
claim 3 2
release 2
claim 4 1
claim 5 0
claim 6 2
claim 7 1
held 4";

// A pinned frame is passed over, and one that is unpinned has its old turn.
const PINNED: &str = "\
claim 1 0
claim 2 1
claim 3 2
pin 1
free 2
claim 4 1
claim 5 2
held 1 0
unpin 1
free 3
claim 6 0
held 1";

#[test]
fn frames_hold_keys_as_scripts_say(rt: HostRuntime) -> Result<(), Fail> {
    assert!(rt; followed_by_new(rt.alloc(), 1, ONE)? == 6);
    assert!(rt; followed_by_new(rt.alloc(), 3, OLDEST)? == 9);
    assert!(rt; followed_by_new(rt.alloc(), 3, PINNED)? == 12);
    Ok(())
}

// Fills the frame of a tile with one byte, in a frame that is claimed for it.
fn fill(pool: &mut Pool, key: TileKey, byte: u8) -> bool {
    if claim(pool, key).is_none() {
        return false;
    }
    let Some(slot) = pool.find(key) else {
        return false;
    };
    let frame = pool.frame_mut(slot);
    for place in frame.iter_mut() {
        *place = byte;
    }
    true
}

// Whether each of the bytes is this one.
fn are_all(bytes: &[u8], byte: u8) -> bool {
    for found in bytes {
        if *found != byte {
            return false;
        }
    }
    true
}

// Whether each of the 8,192 bytes of a tile's frame is this one.
fn is_filled(pool: &Pool, key: TileKey, byte: u8) -> bool {
    let Some(slot) = pool.find(key) else {
        return false;
    };
    let frame = pool.frame(slot);
    frame.len() == 8192 && are_all(frame, byte)
}

// A tile of another level.
const OTHER: TileKey = TileKey { level: 1, place: 1 };

// Whether the frames of two tiles keep the bytes with which each is filled.
fn keeps_two(pool: &mut Pool) -> bool {
    fill(pool, tile(1), 0xa1)
        && fill(pool, OTHER, 0xb2)
        && is_filled(pool, tile(1), 0xa1)
        && is_filled(pool, OTHER, 0xb2)
}

// Whether a third tile takes the frame of the first, and the other frame keeps its bytes.
fn keeps_the_second(pool: &mut Pool) -> bool {
    fill(pool, tile(3), 0xc3)
        && is_filled(pool, OTHER, 0xb2)
        && is_filled(pool, tile(3), 0xc3)
        && find(pool, tile(1)).is_none()
}

#[test]
fn frames_keep_their_bytes(rt: HostRuntime) -> Result<(), Fail> {
    let mut pool = Pool::new(rt.alloc(), 2)?;
    assert!(rt; keeps_two(&mut pool));
    assert!(rt; keeps_the_second(&mut pool));
    Ok(())
}
