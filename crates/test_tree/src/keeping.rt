//! Nodes that are retained, compared with the known ones and with those that are rebuilt.

use crate::known::{
    ENTRIES, N0_1, N0_2, N0_4, N0_6, N0_8, N1_2, N2_4, N4_5, N4_6, N4_8, N6_8, NONE,
};
use mtc_io::{Failed, Memory};
use std::alloc::Global;
use std::test::Fail;
use tree_cache::Cache;
use tree_core::{Sha, leaf, subtree_ok};
use tree_proofs::{Listed, Nodes, Path, consist, include};

// Adds the first entries.
fn add_first(cache: &mut Cache<Sha>, count: usize) -> Result<(), Memory> {
    for text in ENTRIES.iter().take(count) {
        cache.push(&leaf::<Sha>(text))?;
    }
    Ok(())
}

// The first entries, half of them in reserved capacity.
fn kept(alloc: Global, count: usize) -> Result<Cache<Sha>, Memory> {
    let mut cache = Cache::new(alloc);
    cache.reserve(count / 2)?;
    add_first(&mut cache, count)?;
    Ok(cache)
}

/// A node; none of what the nodes have not.
pub(crate) fn node<N: Nodes>(
    nodes: &mut N,
    level: u32,
    place: u64,
) -> Option<Result<[u8; 32], Failed>> {
    let size = nodes.size();
    if level >= 32 || place >= size >> level {
        return None;
    }
    Some(nodes.node(level, place))
}

// Whether the hash of a full subtree is this one.
fn is_node(cache: &mut Cache<Sha>, level: u32, place: u64, wanted: &[u8; 32]) -> bool {
    node(cache, level, place) == Some(Ok(*wanted))
}

// Whether these leaves and pairs of leaves have the known hashes.
fn has_lower_nodes(cache: &mut Cache<Sha>) -> bool {
    is_node(cache, 0, 0, &N0_1)
        && is_node(cache, 0, 1, &N1_2)
        && is_node(cache, 0, 4, &N4_5)
        && is_node(cache, 1, 0, &N0_2)
        && is_node(cache, 1, 1, &N2_4)
        && is_node(cache, 1, 2, &N4_6)
}

// Whether the last pair and the nodes above the pairs have the known hashes.
fn has_upper_nodes(cache: &mut Cache<Sha>) -> bool {
    is_node(cache, 1, 3, &N6_8)
        && is_node(cache, 2, 0, &N0_4)
        && is_node(cache, 2, 1, &N4_8)
        && is_node(cache, 3, 0, &N0_8)
}

#[test]
fn full_subtrees_have_the_known_hashes(rt: HostRuntime) -> Result<(), Fail> {
    let mut cache = kept(rt.alloc(), 8)?;
    assert!(rt; has_lower_nodes(&mut cache));
    assert!(rt; has_upper_nodes(&mut cache));
    Ok(())
}

// How long the row of a level is.
fn length(cache: &Cache<Sha>, level: u32) -> usize {
    cache.row(level).len()
}

// Whether the hash at an index of a row is this one.
fn is_in_row(cache: &Cache<Sha>, level: u32, index: usize, wanted: &[u8; 32]) -> bool {
    cache.row(level).get(index) == Some(wanted)
}

// Whether the rows of seven entries hold the known hashes.
fn has_rows_of_seven(cache: &Cache<Sha>) -> bool {
    is_in_row(cache, 0, 0, &N0_1)
        && is_in_row(cache, 0, 1, &N1_2)
        && is_in_row(cache, 0, 4, &N4_5)
        && is_in_row(cache, 1, 0, &N0_2)
        && is_in_row(cache, 1, 1, &N2_4)
        && is_in_row(cache, 1, 2, &N4_6)
        && is_in_row(cache, 2, 0, &N0_4)
}

#[test]
fn rows_have_the_full_subtrees_of_their_level(rt: HostRuntime) -> Result<(), Fail> {
    let cache = kept(rt.alloc(), 7)?;
    for (level, count) in [
        (0, 7),
        (1, 3),
        (2, 1),
        (3, 0),
        (63, 0),
        (64, 0),
        (u32::MAX, 0),
    ] {
        assert!(rt; length(&cache, level) == count, "{level}");
    }
    assert!(rt; has_rows_of_seven(&cache));
    Ok(())
}

// The root of the first entries.
fn root_of(alloc: Global, count: usize) -> Result<[u8; 32], Memory> {
    Ok(kept(alloc, count)?.root())
}

#[test]
fn roots_are_the_known_ones(rt: HostRuntime) -> Result<(), Fail> {
    assert!(rt; root_of(rt.alloc(), 0)? == NONE);
    assert!(rt; root_of(rt.alloc(), 6)? == N0_6);
    assert!(rt; root_of(rt.alloc(), 8)? == N0_8);
    Ok(())
}

// The inclusion path of an entry among all; none of no entry.
fn path_of<N: Nodes>(nodes: &mut N, index: u64) -> Option<Path> {
    let size = nodes.size();
    if index >= size || !subtree_ok(0, size) {
        return None;
    }
    let mut path = Path::new();
    match include(nodes, index, 0, size, &mut path) {
        Ok(()) => Some(path),
        Err(Failed) => None,
    }
}

// The consistency proof of the first entries; none of no entries.
fn proof_of<N: Nodes>(nodes: &mut N, end: u64) -> Option<Path> {
    let size = nodes.size();
    if end > size || !subtree_ok(0, end) {
        return None;
    }
    let mut proof = Path::new();
    match consist(nodes, 0, end, size, &mut proof) {
        Ok(()) => Some(proof),
        Err(Failed) => None,
    }
}

// Whether both are there and the same.
fn are_same(given: Option<Path>, wanted: Option<Path>) -> bool {
    match (given, wanted) {
        (Some(given), Some(wanted)) => given.as_slice() == wanted.as_slice(),
        _ => false,
    }
}

// Whether both give the same path of each entry and the same proof up to it.
fn agree(cache: &mut Cache<Sha>, listed: &mut Listed<Sha>, size: u64) -> bool {
    for at in 0..size {
        let end = at + 1;
        if !are_same(path_of(cache, at), path_of(listed, at))
            || !are_same(proof_of(cache, end), proof_of(listed, end))
        {
            return false;
        }
    }
    true
}

fn push(cache: &mut Cache<Sha>, listed: &mut Listed<Sha>, size: u64) -> Result<(), Memory> {
    let hash = leaf::<Sha>(&size.to_be_bytes());
    cache.push(&hash)?;
    listed.push(&hash)
}

// The first size up to 33 at which the two differ.
fn differ_at(cache: &mut Cache<Sha>, listed: &mut Listed<Sha>) -> Result<Option<u64>, Memory> {
    for size in 1..34 {
        push(cache, listed, size)?;
        if !agree(cache, listed, size) {
            return Ok(Some(size));
        }
    }
    Ok(None)
}

#[test]
fn proofs_are_those_of_rebuilt_nodes(rt: HostRuntime) {
    let mut cache = Cache::new(rt.alloc());
    let mut listed = Listed::new(rt.alloc());
    let found = differ_at(&mut cache, &mut listed);
    assert!(rt; found == Ok(None), "{found:?}");
}
