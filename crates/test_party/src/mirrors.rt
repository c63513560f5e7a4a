//! Mirrors of a log of eight entries, and of one whose entries fill a tile: their records, what is
//! taken, and what is refused.

use crate::journals::{changed, disk, holds, left, no_bytes};
use crate::known::ROOT_OF_8;
use disk_core::MemDisk;
use entry_list::read_items;
use frame_pool::Pool;
use journal_core::OpenError;
use mirror_core::{Mirror, MirrorError, MirrorOpenError, MirrorRefused, create};
use mtc_io::{Bytes, Failed, MemSink, Memory};
use std::alloc::Global;
use std::test::Fail;
use tls_wire::AnchorId;
use tree_core::Sha;
use tree_proofs::Nodes;

pub(crate) type MemMirror = Mirror<Sha, MemDisk, MemDisk>;

// The journal of a new mirror of log 32473.1.
pub(crate) const NEW_MIRROR: [u8; 28] = [
    0x6D, 0x74, 0x63, 0x2D, 0x6A, 0x6F, 0x75, 0x72, 0x6E, 0x61, 0x6C, 0x2F, 0x76, 0x31, 0x0A, 0x00,
    0x01, 0x00, 0x00, 0x00, 0x06, 0x21, 0x04, 0x81, 0xFD, 0x59, 0x01, 0x00,
];

// The record of the eight entries from its commit byte up to the first of them.
const BATCH_HEAD: [u8; 8] = [0x01, 0x00, 0x00, 0x00, 0x45, 0x22, 0x00, 0x08];

// The eight entries as a file, each beside a key of no bytes.
pub(crate) const ENTRIES: [u8; 66] = [
    0x00, 0x00, 0x00, 0x00, 0x00, 0x01, 0x00, 0x00, 0x00, 0x00, 0x01, 0x10, 0x00, 0x00, 0x00, 0x02,
    0x20, 0x21, 0x00, 0x00, 0x00, 0x02, 0x30, 0x31, 0x00, 0x00, 0x00, 0x04, 0x40, 0x41, 0x42, 0x43,
    0x00, 0x00, 0x00, 0x08, 0x50, 0x51, 0x52, 0x53, 0x54, 0x55, 0x56, 0x57, 0x00, 0x00, 0x00, 0x10,
    0x60, 0x61, 0x62, 0x63, 0x64, 0x65, 0x66, 0x67, 0x68, 0x69, 0x6A, 0x6B, 0x6C, 0x6D, 0x6E, 0x6F,
    0x00, 0x00,
];

// Where the second byte of entry 3 stands in that file.
const IN_ENTRY_3: usize = 17;

// The disk of the journal of a new mirror of log 32473.1, where it is begun.
fn begun(alloc: Global) -> Option<MemDisk> {
    let Ok(id) = AnchorId::from_text(alloc, "32473.1") else {
        return None;
    };
    match create(alloc, no_bytes(alloc), &id) {
        Ok(journal) => Some(journal.into_disk()),
        Err(_) => None,
    }
}

// Opens the mirror on two disks with a pool of one frame.
pub(crate) fn open(
    alloc: Global,
    disk: MemDisk,
    tiles: MemDisk,
) -> Result<MemMirror, MirrorRefused<MemDisk, MemDisk>> {
    match Pool::new(alloc, 1) {
        Ok(pool) => Mirror::open(alloc, disk, tiles, pool),
        Err(Memory) => Err(MirrorRefused {
            disk,
            tiles,
            why: MirrorOpenError::Open(OpenError::Memory),
        }),
    }
}

// A new mirror, where there is one.
pub(crate) fn new_mirror(alloc: Global) -> Option<MemMirror> {
    open(alloc, begun(alloc)?, no_bytes(alloc)).ok()
}

// What a mirror answers to the items of a file.
pub(crate) fn take(
    alloc: Global,
    mirror: &mut MemMirror,
    list: &[u8],
) -> Option<Result<u64, MirrorError>> {
    match read_items::<Sha>(alloc, list) {
        Ok(items) => Some(mirror.take(&items)),
        Err(_) => None,
    }
}

// The new mirror after it has taken the items of a file, where it has taken so many.
pub(crate) fn mirror_of(alloc: Global, list: &[u8], count: u64) -> Option<MemMirror> {
    let mut mirror = new_mirror(alloc)?;
    if take(alloc, &mut mirror, list)? == Ok(count) {
        Some(mirror)
    } else {
        None
    }
}

pub(crate) fn of_eight(alloc: Global) -> Option<MemMirror> {
    mirror_of(alloc, &ENTRIES, 8)
}

// The disk of a mirror's journal.
fn disk_of(mirror: MemMirror) -> MemDisk {
    mirror.into_disks().0
}

// The journal with the eight entries.
pub(crate) fn wanted(alloc: Global) -> Result<Bytes, Memory> {
    let mut journal = Bytes::copy_of(alloc, &NEW_MIRROR)?;
    journal.truncate(27);
    journal.append(&BATCH_HEAD)?;
    journal.append(&ENTRIES)?;
    journal.append(&[0x00])?;
    Ok(journal)
}

#[test]
fn a_new_mirror_has_one_record(rt: HostRuntime) -> Result<(), Fail> {
    let made = begun(rt.alloc()).ok_or("refused")?;
    assert!(rt; holds(&made, &NEW_MIRROR));
    Ok(())
}

#[test]
fn items_are_taken_once(rt: HostRuntime) -> Result<(), Fail> {
    let mut mirror = of_eight(rt.alloc()).ok_or("refused")?;
    let again = take(rt.alloc(), &mut mirror, &ENTRIES);
    assert!(rt; again == Some(Err(MirrorError::NothingNew)));
    assert!(rt; mirror.size() == 8);
    let journal = wanted(rt.alloc())?;
    assert!(rt; journal.len() == 102);
    assert!(rt; holds(&disk_of(mirror), journal.as_slice()));
    Ok(())
}

// What a mirror answers to the eight entries with this byte in entry 3.
fn take_changed(
    alloc: Global,
    mirror: &mut MemMirror,
    byte: u8,
) -> Result<Option<Result<u64, MirrorError>>, Memory> {
    let list = changed(alloc, &ENTRIES, IN_ENTRY_3, byte)?;
    Ok(take(alloc, mirror, list.as_slice()))
}

#[test]
fn items_that_differ_are_refused(rt: HostRuntime) -> Result<(), Fail> {
    let mut mirror = of_eight(rt.alloc()).ok_or("refused")?;
    let answer = take_changed(rt.alloc(), &mut mirror, 0x20)?;
    assert!(rt; answer == Some(Err(MirrorError::Differs(3))));
    let answer = take_changed(rt.alloc(), &mut mirror, 0x21)?;
    assert!(rt; answer == Some(Err(MirrorError::NothingNew)));
    Ok(())
}

// Whether a mirror answers this entry and a key of no bytes at an index, over other bytes.
fn has_entry(
    alloc: Global,
    mirror: &mut MemMirror,
    index: u64,
    wanted: &[u8],
) -> Result<bool, Memory> {
    let mut entry = Bytes::copy_of(alloc, b"old")?;
    let mut key = Bytes::copy_of(alloc, b"old")?;
    let answer = mirror.item(index, &mut entry, &mut key);
    Ok(answer.is_ok() && entry.as_slice() == wanted && key.is_empty())
}

// What a mirror answers at an index.
fn answer_at(alloc: Global, mirror: &mut MemMirror, index: u64) -> Result<(), MirrorError> {
    mirror.item(index, &mut Bytes::new(alloc), &mut Bytes::new(alloc))
}

#[test]
fn items_are_read_back(rt: HostRuntime) -> Result<(), Fail> {
    let mut mirror = of_eight(rt.alloc()).ok_or("refused")?;
    assert!(rt; has_entry(rt.alloc(), &mut mirror, 0, b"")?);
    assert!(rt; has_entry(rt.alloc(), &mut mirror, 3, b"\x20\x21")?);
    assert!(rt; has_entry(rt.alloc(), &mut mirror, 7, b"`abcdefghijklmno")?);
    assert!(rt; answer_at(rt.alloc(), &mut mirror, 8) == Err(MirrorError::Beyond(8)));
    Ok(())
}

// A node; none of what the nodes have not.
fn node<N: Nodes>(nodes: &mut N, level: u32, place: u64) -> Option<Result<[u8; 32], Failed>> {
    let size = nodes.size();
    if level >= 32 || place >= size >> level {
        return None;
    }
    Some(nodes.node(level, place))
}

#[test]
fn a_mirror_has_the_nodes_of_its_entries(rt: HostRuntime) -> Result<(), Fail> {
    let mut mirror = of_eight(rt.alloc()).ok_or("refused")?;
    assert!(rt; node(&mut mirror, 3, 0) == Some(Ok(ROOT_OF_8)));
    assert!(rt; node(&mut mirror, 4, 0) == None);
    assert!(rt; mirror.tile() == Err(MirrorError::NothingNew));
    Ok(())
}

// A file of so many entries of two bytes, each with its number.
pub(crate) fn list_of(alloc: Global, count: u16) -> Result<Bytes, Memory> {
    let mut list = Bytes::new(alloc);
    for number in 0..count {
        list.append(&[0x00, 0x02])?;
        list.append(&number.to_be_bytes())?;
        list.append(&[0x00, 0x00])?;
    }
    Ok(list)
}

// A mirror that has taken the first three of these entries, and then all.
fn in_two_batches(alloc: Global, list: &[u8]) -> Result<Option<MemMirror>, Memory> {
    let Some(mut mirror) = mirror_of(alloc, list_of(alloc, 3)?.as_slice(), 3) else {
        return Ok(None);
    };
    let answer = take(alloc, &mut mirror, list);
    Ok(if answer == Some(Ok(260)) {
        Some(mirror)
    } else {
        None
    })
}

// What a mirror answers to so many items, and what a sink has taken then, seven bytes a call, which
// fails on these calls.
fn write(
    alloc: Global,
    mirror: &mut MemMirror,
    size: u64,
    failing: &[u64],
) -> Result<(Result<Result<(), Failed>, MirrorError>, Bytes), Memory> {
    let mut out = MemSink::new(alloc, 7, Vec::from_slice(alloc, failing)?);
    let answer = mirror.write_items(size, &mut out);
    Ok((answer, Bytes::copy_of(alloc, out.taken())?))
}

#[test]
fn the_first_items_are_written(rt: HostRuntime) -> Result<(), Fail> {
    let list = list_of(rt.alloc(), 260)?;
    let mut mirror = in_two_batches(rt.alloc(), list.as_slice())?.ok_or("refused")?;
    for (size, bytes) in [(0, 0), (2, 12), (3, 18), (5, 30), (260, 1560)] {
        let (answer, out) = write(rt.alloc(), &mut mirror, size, &[])?;
        assert!(rt; answer == Ok(Ok(())), "{size}");
        assert!(rt;
            list.as_slice().get(..bytes) == Some(out.as_slice()),
            "{size}"
        );
    }
    let (answer, out) = write(rt.alloc(), &mut mirror, 261, &[])?;
    assert!(rt; answer == Err(MirrorError::Beyond(260)));
    assert!(rt; out.is_empty());
    Ok(())
}

#[test]
fn a_sink_that_fails_has_taken_a_prefix(rt: HostRuntime) -> Result<(), Fail> {
    let list = list_of(rt.alloc(), 260)?;
    let mut mirror = in_two_batches(rt.alloc(), list.as_slice())?.ok_or("refused")?;
    let (answer, out) = write(rt.alloc(), &mut mirror, 260, &[2])?;
    assert!(rt; answer == Ok(Err(Failed)));
    assert!(rt; list.as_slice().get(..14) == Some(out.as_slice()));
    Ok(())
}

// Whether the mirror in a journal, where it is opened though a call of its disk fails, answers to
// all items that a disk failed; with a prefix of them, and else with all.
fn reports_call(
    alloc: Global,
    journal: &[u8],
    list: &[u8],
    call: u64,
) -> Result<Option<bool>, Memory> {
    let Ok(mut mirror) = open(alloc, disk(alloc, journal, &[call])?, no_bytes(alloc)) else {
        return Ok(Some(false));
    };
    let (answer, out) = write(alloc, &mut mirror, 260, &[])?;
    let failed = answer == Err(MirrorError::Failed);
    let right = failed && list.starts_with(out.as_slice());
    Ok(if right || answer == Ok(Ok(())) && out.as_slice() == list {
        Some(failed)
    } else {
        None
    })
}

// The length and the body of each of the two Batches are read, and no more.
#[test]
fn each_batch_is_read_once(rt: HostRuntime) -> Result<(), Fail> {
    let list = list_of(rt.alloc(), 260)?;
    let mirror = in_two_batches(rt.alloc(), list.as_slice())?.ok_or("refused")?;
    let journal = disk_of(mirror);
    let mut failed = 0_u64;
    for call in 0..40 {
        let answer = reports_call(rt.alloc(), journal.bytes(), list.as_slice(), call)?;
        if answer.ok_or("wrong items")? {
            failed = failed.saturating_add(1);
        }
    }
    assert!(rt; failed == 4);
    Ok(())
}

// A mirror of 260 entries, and what it answers when its full tiles are stored.
fn tiled(alloc: Global) -> Result<Option<(MemMirror, Result<u64, MirrorError>)>, Memory> {
    let list = list_of(alloc, 260)?;
    let Some(mut mirror) = mirror_of(alloc, list.as_slice(), 260) else {
        return Ok(None);
    };
    let answer = mirror.tile();
    Ok(Some((mirror, answer)))
}

// The size of the mirror over these disks and that of its tiles, or why it is refused.
fn sizes_over(
    alloc: Global,
    journal: MemDisk,
    tiles: MemDisk,
) -> Result<(u64, u64), MirrorOpenError> {
    match open(alloc, journal, tiles) {
        Ok(mirror) => Ok((mirror.size(), mirror.tiled())),
        Err(refused) => Err(refused.why),
    }
}

#[test]
fn full_tiles_are_stored_and_adopted(rt: HostRuntime) -> Result<(), Fail> {
    let (mut mirror, answer) = tiled(rt.alloc())?.ok_or("refused")?;
    assert!(rt; answer == Ok(256));
    assert!(rt; mirror.tile() == Err(MirrorError::NothingNew));
    let before = node(&mut mirror, 8, 0);
    let (journal, tiles) = mirror.into_disks();
    assert!(rt; tiles.bytes().len() == 8192);
    let copies = (journal.open_copy()?, tiles.open_copy()?);
    let mut again = open(rt.alloc(), copies.0, copies.1)
        .ok()
        .ok_or("not opened")?;
    assert!(rt; node(&mut again, 8, 0) == before);
    for pick in 0..4 {
        let (journal, tiles) = (left(&journal, pick)?, left(&tiles, pick)?);
        assert!(rt;
            sizes_over(rt.alloc(), journal, tiles) == Ok((260, 256)),
            "{pick}"
        );
    }
    Ok(())
}

// Why there is no mirror in these bytes.
fn refusal(alloc: Global, bytes: &[u8]) -> Result<Option<MirrorOpenError>, Memory> {
    Ok(sizes_over(alloc, disk(alloc, bytes, &[])?, no_bytes(alloc)).err())
}

// Why there is no mirror in the journal of the eight entries with this byte at an offset.
fn refusal_with(alloc: Global, offset: usize, byte: u8) -> Result<Option<MirrorOpenError>, Memory> {
    let bytes = changed(alloc, wanted(alloc)?.as_slice(), offset, byte)?;
    refusal(alloc, bytes.as_slice())
}

// The tag of the Mirror, that of the Batch, and its count.
#[test]
fn records_keep_to_the_rules(rt: HostRuntime) -> Result<(), Fail> {
    let bad = MirrorOpenError::BadRecord;
    assert!(rt; refusal_with(rt.alloc(), 21, 0x21)? == None);
    assert!(rt; refusal_with(rt.alloc(), 21, 0x22)? == Some(bad(0)));
    assert!(rt; refusal_with(rt.alloc(), 32, 0x21)? == Some(bad(1)));
    assert!(rt; refusal_with(rt.alloc(), 34, 0x07)? == Some(bad(1)));
    assert!(rt; refusal_with(rt.alloc(), 34, 0x09)? == Some(bad(1)));
    Ok(())
}
