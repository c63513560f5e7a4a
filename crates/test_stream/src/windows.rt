//! Files that are longer than what is read at a time.

use entry_list::{ItemsError, read_items};
use entry_stream::fold_items;
use mtc_io::{Bytes, MemSource, Memory};
use std::alloc::Global;
use std::test::Fail;
use tree_core::Sha;
use tree_peaks::Peaks;
use tree_proofs::list_hash;

// A file of so many items without keys, each with an entry of so many bytes.
fn file_of(alloc: Global, count: u16, size: u16) -> Result<Bytes, Memory> {
    let mut bytes = Bytes::new(alloc);
    let entry = vec![in alloc; 7; usize::from(size)]?;
    for _ in 0..count {
        bytes.append_both(&size.to_be_bytes(), &entry)?;
        bytes.append(&[0, 0])?;
    }
    Ok(bytes)
}

// The number and the tree hash of the items of a file, in memory.
fn listed(alloc: Global, bytes: &[u8]) -> Option<(u64, [u8; 32])> {
    let items = read_items::<Sha>(alloc, bytes).ok()?;
    Some((items.len() as u64, list_hash::<Sha, _>(&items.entries())))
}

// The same as a stream.
fn streamed(alloc: Global, bytes: &[u8]) -> Result<Option<(u64, [u8; 32])>, Memory> {
    let copy = Bytes::copy_of(alloc, bytes)?;
    let mut source = MemSource::new(copy, Vec::new(alloc));
    let mut peaks: Peaks<Sha> = Peaks::new();
    match fold_items::<Sha, _, _>(alloc, &mut source, 1 << 30, &mut peaks) {
        Ok(Ok(count)) => Ok(Some((count, peaks.root()))),
        Ok(Err(ItemsError::Short(_))) => Ok(None),
        _ => Err(Memory),
    }
}

// A file, and the file without its last byte, are read as they are in memory.
fn agree(alloc: Global, count: u16, size: u16) -> Result<bool, Memory> {
    let bytes = file_of(alloc, count, size)?;
    let cut = &bytes.as_slice()[..bytes.len().saturating_sub(1)];
    let whole = streamed(alloc, bytes.as_slice())?;
    Ok(
        whole.is_some()
            && whole == listed(alloc, bytes.as_slice())
            && streamed(alloc, cut)? == listed(alloc, cut),
    )
}

#[test]
fn long_files_are_read_as_in_memory(rt: HostRuntime) -> Result<(), Fail> {
    let cases = [
        (1, 0),
        (1, 4092),
        (1, 4093),
        (3, 4090),
        (700, 2),
        (1, 65_532),
        (1, 65_533),
        (3, 32_770),
        (3, 65_530),
        (3, 65_531),
        (11_000, 2),
        (1, 65_535),
        (3, 65_535),
    ];
    for (count, size) in cases {
        assert!(rt; agree(rt.alloc(), count, size)?, "{count} of {size}");
    }
    Ok(())
}
