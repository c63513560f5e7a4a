//! Lists that grow: by their peaks, and by runs of a monitor however they are cut.

use crate::known::{ENTRIES, N0_4, N0_6, N0_8, N4_6};
use hex::FromHex;
use monitor_core::{State, monitor, read_watch, write_state};
use mtc_io::{Bytes, Memory};
use std::alloc::Global;
use std::test::Fail;
use tls_wire::AnchorId;
use tree_core::{Sha, leaf, subtree_ok};
use tree_peaks::Peaks;
use tree_proofs::{Listed, Nodes, Path, consist, list_hash};

// The peaks of the first entries.
fn peaks_of(count: usize) -> Peaks<Sha> {
    let mut peaks = Peaks::new();
    for entry in ENTRIES.iter().take(count) {
        if peaks.size() < 1 << 32 {
            peaks.push(&leaf::<Sha>(entry));
        }
    }
    peaks
}

fn is_hash(hash: &[u8; 32], digits: &str) -> bool {
    match <[u8; 32] as FromHex>::from_hex(digits) {
        Ok(wanted) => wanted == *hash,
        Err(_) => false,
    }
}

// The root of the first entries.
fn has_root(count: usize, digits: &str) -> bool {
    is_hash(&peaks_of(count).root(), digits)
}

#[test]
fn peaks_have_the_root_of_their_list(rt: HostRuntime) {
    let none = "e3b0c44298fc1c149afbf4c8996fb92427ae41e4649b934ca495991b7852b855";
    assert!(rt; has_root(0, none));
    assert!(rt; has_root(4, N0_4));
    assert!(rt; has_root(6, N0_6));
    assert!(rt; has_root(8, N0_8));
}

// The peaks of the first six entries are these two.
fn has_both(first: &str, second: &str) -> bool {
    match peaks_of(6).as_slice() {
        [one, other] => is_hash(one, first) && is_hash(other, second),
        _ => false,
    }
}

#[test]
fn peaks_stand_the_largest_first(rt: HostRuntime) {
    assert!(rt; has_both(N0_4, N4_6));
}

// The nodes of all entries.
fn nodes(alloc: Global) -> Result<Listed<Sha>, Memory> {
    let mut nodes = Listed::new(alloc);
    for entry in ENTRIES {
        nodes.push(&leaf::<Sha>(entry))?;
    }
    Ok(nodes)
}

// The proof that so many first entries stand in a longer list of them; no hashes for none.
fn proof(nodes: &mut Listed<Sha>, old: u64, new: u64) -> Path {
    let mut proof = Path::new();
    if subtree_ok(0, old) && old <= new && new <= nodes.size() {
        let _made = consist(nodes, 0, old, new, &mut proof);
    }
    proof
}

// The state of so many first entries, from that of fewer.
fn grown(alloc: Global, state: State, new: usize) -> Result<Option<State>, Memory> {
    let old = state.size() as usize;
    let mut nodes = nodes(alloc)?;
    let proof = proof(&mut nodes, old as u64, new as u64);
    let (Some(all), Some(entries)) = (ENTRIES.get(..new), ENTRIES.get(old..new)) else {
        return Ok(None);
    };
    let Ok(watch) = read_watch(alloc, b"") else {
        return Ok(None);
    };
    let root = list_hash::<Sha, _>(&all);
    let log = [0x81, 0xFD, 0x59, 0x01];
    let hashes = proof.as_slice();
    match monitor::<Sha, _>(
        alloc, &state, &watch, &log, new as u64, &root, hashes, &entries,
    ) {
        Ok(found) => Ok(Some(found.into_state())),
        Err(_) => Ok(None),
    }
}

// The line of the state after runs that end at these sizes.
fn line_after(alloc: Global, sizes: &[usize]) -> Result<Option<Bytes>, Memory> {
    let Ok(log) = AnchorId::from_text(alloc, "32473.1") else {
        return Ok(None);
    };
    let mut state = State::empty(alloc, log);
    for size in sizes {
        state = match grown(alloc, state, *size)? {
            Some(next) => next,
            None => return Ok(None),
        };
    }
    Ok(Some(write_state(alloc, &state)?))
}

// Whether runs that end at these sizes leave what one run to the last of them leaves.
fn is_as_one(alloc: Global, sizes: &[usize], last: usize) -> Result<bool, Memory> {
    let (Some(many), Some(one)) = (line_after(alloc, sizes)?, line_after(alloc, &[last])?) else {
        return Ok(false);
    };
    Ok(many.as_slice() == one.as_slice())
}

// How many of the ways to cut eight entries into two runs or three leave what one run leaves.
fn count_as_one(alloc: Global) -> Result<u64, Memory> {
    let mut count = 0u64;
    for first in 1..8usize {
        if is_as_one(alloc, &[first, 8], 8)? {
            count = count.saturating_add(1);
        }
        for second in first + 1..8 {
            if is_as_one(alloc, &[first, second, 8], 8)? {
                count = count.saturating_add(1);
            }
        }
    }
    Ok(count)
}

#[test]
fn runs_leave_one_state_however_they_are_cut(rt: HostRuntime) -> Result<(), Fail> {
    assert!(rt; count_as_one(rt.alloc())? == 28);
    Ok(())
}
