//! Logs that are begun, read and added to.

use crate::journals::{
    ENTRY, KEY, MemLog, NEW_LOG, add, begin, disk_of, holds, item_at, log_in, no_bytes, opened,
    size, with_entry,
};
use disk_core::MemDisk;
use issuance_log::LogError;
use journal_core::StartError;
use mtc_io::{Failed, Memory};
use std::alloc::Global;
use std::test::Fail;
use tree_core::{Sha, leaf, subtree_ok};
use tree_proofs::node_of;

// The tree hash of the null entry and that one.
const ROOT: [u8; 32] = [
    0x77, 0x56, 0x68, 0x25, 0xCD, 0x25, 0xF2, 0x63, 0x27, 0x1E, 0x3F, 0xA5, 0x34, 0x1D, 0xB2, 0x8E,
    0xD2, 0xC8, 0x79, 0x45, 0xEE, 0x98, 0xF7, 0x31, 0xB2, 0xAA, 0x96, 0xB9, 0xE6, 0xB1, 0x1C, 0xF6,
];

// Whether an item is given.
fn gives(
    alloc: Global,
    log: &mut MemLog,
    index: u64,
    item: (&[u8], &[u8]),
) -> Result<bool, Memory> {
    let (entry, key, given) = item_at(alloc, log, index)?;
    Ok(given == Ok(()) && entry.as_slice() == item.0 && key.as_slice() == item.1)
}

// Whether there is no item at an index.
fn gives_none(alloc: Global, log: &mut MemLog, index: u64) -> Result<bool, Memory> {
    let (entry, key, refused) = item_at(alloc, log, index)?;
    Ok(refused == Err(LogError::NoSuchEntry) && entry.is_empty() && key.is_empty())
}

// Whether an item is given, and no second one.
fn gives_one(
    alloc: Global,
    log: &mut MemLog,
    index: u64,
    item: (&[u8], &[u8]),
) -> Result<bool, Memory> {
    Ok(gives(alloc, log, index, item)? && gives_none(alloc, log, index.saturating_add(1))?)
}

// Whether the settings are those of the new log.
fn settings_are_kept(log: &MemLog) -> bool {
    let settings = log.settings();
    settings.id.as_bytes() == [0x81, 0xFD, 0x59, 0x01].as_slice()
        && settings.max_active == 2
        && settings.limit == 64
}

// Whether a log is not begun a second time.
fn is_taken(alloc: Global, disk: MemDisk) -> Result<bool, Memory> {
    let (again, why) = begin(alloc, disk, 64)?;
    Ok(why == Some(StartError::NotEmpty) && holds(&again, &NEW_LOG))
}

// The journal of a new log, where it is the known one.
fn begun(alloc: Global) -> Result<Option<MemDisk>, Memory> {
    let (made, why) = begin(alloc, no_bytes(alloc), 64)?;
    Ok(if why.is_none() && holds(&made, &NEW_LOG) {
        Some(made)
    } else {
        None
    })
}

// Whether a log has the settings of the new log, and the null entry alone.
fn is_new(alloc: Global, log: &mut MemLog) -> Result<bool, Memory> {
    let is_kept = size(log) == 1 && settings_are_kept(log);
    Ok(gives_one(alloc, log, 0, (&[0, 0], &[]))? && is_kept)
}

// The journal of the log on a disk, where it is such a log.
fn read_as_new(alloc: Global, journal: MemDisk) -> Result<Option<MemDisk>, Memory> {
    let Some(mut log) = opened(alloc, journal) else {
        return Ok(None);
    };
    let is_new = is_new(alloc, &mut log);
    let journal = disk_of(log);
    Ok(if is_new? { Some(journal) } else { None })
}

#[test]
fn a_new_log_has_the_null_entry(rt: HostRuntime) -> Result<(), Fail> {
    let made = begun(rt.alloc())?.ok_or("another journal")?;
    let journal = read_as_new(rt.alloc(), made)?.ok_or("another log")?;
    assert!(rt; is_taken(rt.alloc(), journal)?);
    Ok(())
}

// The journal of a new log to which the entry was added.
fn written(alloc: Global) -> Result<Option<MemDisk>, Memory> {
    let Some(mut log) = log_in(alloc, &NEW_LOG)? else {
        return Ok(None);
    };
    let added = add(&mut log, &ENTRY, &KEY) == Ok(1) && size(&log) == 2;
    let rooted = node_of_all(&mut log) == Ok(ROOT);
    let journal = disk_of(log);
    Ok(if added && rooted { Some(journal) } else { None })
}

// The tree hash of the two entries of a log.
fn node_of_all(log: &mut MemLog) -> Result<[u8; 32], Failed> {
    if log.size() != 2 || !subtree_ok(0, 2) {
        return Err(Failed);
    }
    node_of(log, 0, 2)
}

// Whether the log on a disk has the null entry and that one alone.
fn has_the_entry(alloc: Global, journal: MemDisk) -> Result<bool, Memory> {
    let Some(mut log) = opened(alloc, journal) else {
        return Ok(false);
    };
    let is_second = size(&log) == 2;
    let given = gives_one(alloc, &mut log, 1, (&ENTRY, &KEY));
    Ok(given? && is_second)
}

#[test]
fn an_entry_is_added_and_found_again(rt: HostRuntime) -> Result<(), Fail> {
    let disk = written(rt.alloc())?.ok_or("refused")?;
    let wanted = with_entry(rt.alloc())?;
    assert!(rt; wanted.len() == 221 && holds(&disk, wanted.as_slice()));
    assert!(rt; has_the_entry(rt.alloc(), disk)?);
    Ok(())
}

fn node_of_last(log: &mut MemLog) -> Result<[u8; 32], Failed> {
    if log.size() != 2 || !subtree_ok(1, 2) {
        return Err(Failed);
    }
    node_of(log, 1, 2)
}

type Node = Result<[u8; 32], Failed>;

// The hash of the last node and that of all, of the log in these bytes.
fn nodes_of(alloc: Global, bytes: &[u8]) -> Result<Option<(Node, Node)>, Memory> {
    let Some(mut log) = log_in(alloc, bytes)? else {
        return Ok(None);
    };
    let nodes = (node_of_last(&mut log), node_of_all(&mut log));
    Ok(Some(nodes))
}

#[test]
fn a_log_is_the_nodes_of_its_tree(rt: HostRuntime) -> Result<(), Fail> {
    let bytes = with_entry(rt.alloc())?;
    let wanted = (Ok(leaf::<Sha>(&ENTRY)), Ok(ROOT));
    assert!(rt; nodes_of(rt.alloc(), bytes.as_slice())? == Some(wanted));
    Ok(())
}
