//! Roots, nodes, and proofs made and checked.

use crate::known::{
    ENTRIES, N0_1, N0_2, N0_4, N0_6, N0_8, N1_2, N2_4, N4_5, N4_6, N4_8, N6_8, NONE,
};
use mtc_io::{Bytes, Failed, Memory};
use std::alloc::Global;
use std::test::Fail;
use tree_core::{Sha, Toy, leaf, subtree_ok};
use tree_proofs::{
    ConsistError, Listed, Nodes, Opened, Path, check, consist, include, node_of, opened, root,
};

// The entries as a list.
fn entries(alloc: Global) -> Result<Vec<Bytes>, Memory> {
    let mut entries = Vec::new(alloc);
    for text in ENTRIES {
        entries.push(Bytes::copy_of(alloc, text)?)?;
    }
    Ok(entries)
}

// The nodes of the entries, the first half in reserved capacity.
fn nodes(alloc: Global) -> Result<Listed<Sha>, Memory> {
    let mut nodes = Listed::new(alloc);
    nodes.reserve(4)?;
    nodes.reserve(1)?;
    for text in ENTRIES {
        nodes.push(&leaf::<Sha>(text))?;
    }
    Ok(nodes)
}

// The hash of a subtree of the nodes; none of what is no subtree of theirs.
fn subtree<N: Nodes>(nodes: &mut N, start: u64, end: u64) -> Option<Result<[u8; 32], Failed>> {
    if !subtree_ok(start, end) || end > nodes.size() {
        return None;
    }
    Some(node_of(nodes, start, end))
}

// Makes the inclusion path of an entry in a subtree of the nodes.
fn make_path<N: Nodes>(
    nodes: &mut N,
    index: u64,
    start: u64,
    end: u64,
    path: &mut Path,
) -> Option<Result<(), Failed>> {
    if !subtree_ok(start, end) || end > nodes.size() || index < start || end <= index {
        return None;
    }
    Some(include(nodes, index, start, end, path))
}

// Makes the consistency proof of a subtree in the first nodes.
fn make_proof<N: Nodes>(
    nodes: &mut N,
    start: u64,
    end: u64,
    size: u64,
    proof: &mut Path,
) -> Option<Result<(), Failed>> {
    if !subtree_ok(start, end) || end > size || size > nodes.size() {
        return None;
    }
    Some(consist(nodes, start, end, size, proof))
}

// The root of the first six entries.
fn root_of_six(entries: &[Bytes]) -> Option<[u8; 32]> {
    Some(root::<Sha>(entries.get(..6)?))
}

#[test]
fn lists_have_their_root(rt: HostRuntime) -> Result<(), Fail> {
    let entries = entries(rt.alloc())?;
    let mut toy = [0; 32];
    toy[0] = 0xd3;
    assert!(rt; root::<Sha>(entries.as_slice()) == N0_8);
    assert!(rt; root::<Toy>(entries.as_slice()) == toy);
    assert!(rt; root_of_six(entries.as_slice()) == Some(N0_6));
    assert!(rt; root::<Sha>(&[]) == NONE);
    Ok(())
}

// Whether the hash of a subtree of the nodes is this one.
fn is_hash(nodes: &mut Listed<Sha>, start: u64, end: u64, wanted: &[u8; 32]) -> bool {
    subtree(nodes, start, end) == Some(Ok(*wanted))
}

// Whether the subtrees of the first four entries have the known hashes.
fn has_first_four(nodes: &mut Listed<Sha>) -> bool {
    is_hash(nodes, 0, 1, &N0_1)
        && is_hash(nodes, 1, 2, &N1_2)
        && is_hash(nodes, 0, 2, &N0_2)
        && is_hash(nodes, 2, 4, &N2_4)
        && is_hash(nodes, 0, 4, &N0_4)
}

// Whether those that hold later ones have them.
fn has_later_ones(nodes: &mut Listed<Sha>) -> bool {
    is_hash(nodes, 4, 5, &N4_5)
        && is_hash(nodes, 4, 6, &N4_6)
        && is_hash(nodes, 0, 6, &N0_6)
        && is_hash(nodes, 6, 8, &N6_8)
        && is_hash(nodes, 4, 8, &N4_8)
        && is_hash(nodes, 0, 8, &N0_8)
}

#[test]
fn subtrees_of_a_list_have_the_known_hashes(rt: HostRuntime) -> Result<(), Fail> {
    let mut nodes = nodes(rt.alloc())?;
    assert!(rt; nodes.size() == 8);
    assert!(rt; has_first_four(&mut nodes));
    assert!(rt; has_later_ones(&mut nodes));
    Ok(())
}

// Whether these hashes are made as the path of an entry, instead of what the path held.
fn is_path(nodes: &mut Listed<Sha>, index: u64, start: u64, end: u64, wanted: &[[u8; 32]]) -> bool {
    let mut path = Path::new();
    make_path(nodes, 2, 0, 8, &mut path) == Some(Ok(()))
        && make_path(nodes, index, start, end, &mut path) == Some(Ok(()))
        && path.as_slice() == wanted
}

#[test]
fn inclusion_paths_begin_beside_the_leaf(rt: HostRuntime) -> Result<(), Fail> {
    let mut nodes = nodes(rt.alloc())?;
    assert!(rt; is_path(&mut nodes, 1, 0, 8, &[N0_1, N2_4, N4_8]));
    assert!(rt; is_path(&mut nodes, 5, 5, 6, &[]));
    Ok(())
}

// Whether these hashes are made as the proof of a subtree, instead of what the path held.
fn is_proof(nodes: &mut Listed<Sha>, start: u64, end: u64, size: u64, wanted: &[[u8; 32]]) -> bool {
    let mut proof = Path::new();
    make_proof(nodes, 0, 1, 8, &mut proof) == Some(Ok(()))
        && make_proof(nodes, start, end, size, &mut proof) == Some(Ok(()))
        && proof.as_slice() == wanted
}

#[test]
fn consistency_proofs_are_the_known_ones(rt: HostRuntime) -> Result<(), Fail> {
    let mut nodes = nodes(rt.alloc())?;
    assert!(rt; is_proof(&mut nodes, 0, 2, 5, &[N2_4, N4_5]));
    assert!(rt; is_proof(&mut nodes, 4, 6, 8, &[N6_8, N0_4]));
    assert!(rt; is_proof(&mut nodes, 0, 8, 8, &[]));
    assert!(rt; is_proof(&mut nodes, 0, 6, 8, &[N4_6, N6_8, N0_4]));
    Ok(())
}

// What a proof of a subtree with this hash is answered, at this size and this root.
fn answered(
    interval: (u64, u64),
    node: &[u8; 32],
    size: u64,
    root: &[u8; 32],
    proof: &[[u8; 32]],
) -> Result<(), ConsistError> {
    check::<Sha>(interval.0, interval.1, size, node, root, proof)
}

const PROOF: [[u8; 32]; 2] = [N6_8, N0_4];

const INNER: [[u8; 32]; 3] = [N4_6, N6_8, N0_4];

#[test]
fn proofs_pass(rt: HostRuntime) {
    assert!(rt; answered((4, 6), &N4_6, 8, &N0_8, &PROOF) == Ok(()));
    assert!(rt; answered((0, 8), &N0_8, 8, &N0_8, &[]) == Ok(()));
    assert!(rt; answered((0, 6), &N0_6, 8, &N0_8, &INNER) == Ok(()));
}

#[test]
fn proofs_of_another_length_are_refused(rt: HostRuntime) {
    let refused = Err(ConsistError::WrongLength);
    assert!(rt; answered((4, 6), &N4_6, 8, &N0_8, &PROOF[..1]) == refused);
    assert!(rt; answered((4, 6), &N4_6, 8, &N0_8, &INNER) == refused);
    assert!(rt; answered((0, 6), &N0_6, 8, &N0_8, &INNER[1..]) == refused);
}

#[test]
fn proofs_of_another_subtree_or_root_are_refused(rt: HostRuntime) {
    assert!(rt; answered((0, 6), &N0_4, 8, &N0_8, &INNER) == Err(ConsistError::WrongNode));
    assert!(rt; answered((0, 6), &N0_6, 8, &N0_4, &INNER) == Err(ConsistError::WrongRoot));
    assert!(rt; answered((4, 6), &N4_6, 8, &N0_6, &PROOF) == Err(ConsistError::WrongRoot));
    assert!(rt; answered((4, 6), &N2_4, 8, &N0_8, &PROOF) == Err(ConsistError::WrongRoot));
    assert!(rt; answered((4, 6), &N4_6, 5, &N0_8, &PROOF) == Err(ConsistError::Beyond));
    assert!(rt; answered((1, 3), &N2_4, 2, &N0_8, &PROOF) == Err(ConsistError::BadSubtree));
}

// What a proof gives; none also of an interval that is not within the size.
fn given(
    start: u64,
    end: u64,
    size: u64,
    known: bool,
    proof: &[[u8; 32]],
) -> Option<([u8; 32], [u8; 32])> {
    if start >= end || end > size {
        return None;
    }
    let Opened { subtree, root } = opened::<Sha>(start, end, size, known, &N4_6, proof)?;
    Some((subtree, root))
}

#[test]
fn a_proof_gives_the_hash_of_a_subtree_that_is_not_known(rt: HostRuntime) {
    assert!(rt; given(4, 6, 8, false, &INNER) == Some((N4_6, N0_8)));
    assert!(rt; given(4, 6, 8, true, &PROOF) == Some((N4_6, N0_8)));
}

// Proofs of another length; and one of an interval that begins above 0 and goes beyond a split.
#[test]
fn a_proof_of_no_subtree_gives_nothing(rt: HostRuntime) {
    assert!(rt; given(4, 6, 8, false, &PROOF) == None);
    assert!(rt; given(4, 6, 8, true, &PROOF[..1]) == None);
    assert!(rt; given(4, 6, 8, true, &[]) == None);
    assert!(rt; given(4, 6, 8, true, &INNER) == None);
    assert!(rt; given(1, 3, 4, true, &[N0_1, N2_4]) == None);
}

// Eight leaves that the model doesn't know, whose nodes fail from the call with this number on.
#[derive(Drop)]
struct Failing {
    calls: u64,
    failed: u64,
}

impl Nodes for Failing {
    ghost use Rattle.std.proofs.Common.{None, arith, ◌≤◌};

    type H = Toy;

    ghost leaves = { λ _. None };

    ghost count = { λ _. 8 };

    ghost faults = { λ nodes. nodes.failed };

    ghost stays = { λ old new. new.calls ≤ old.calls };

    ghost counted = { λ _. tt };

    ghost stays_before = { λ _. omega arith };

    ghost stays_on = { λ _ _ _ first second. omega (arith, first, second) };

    fn size(&self) -> u64 {
        8
    }

    fn node(&mut self, _level: u32, _place: u64) -> Result<[u8; 32], Failed> {
        if self.calls == 0 {
            self.failed = self.failed.saturating_add(1);
            return Err(Failed);
        }
        self.calls -= 1;
        Ok([7; 32])
    }
}

// Nodes that fail from this call on.
fn fails_from(calls: u64) -> Failing {
    Failing { calls, failed: 0 }
}

#[test]
fn a_failure_is_returned(rt: HostRuntime) {
    let mut path = Path::new();
    for calls in 0..4 {
        let wanted = Some(if calls < 3 { Err(Failed) } else { Ok(()) });
        assert!(rt;
            make_path(&mut fails_from(calls), 1, 0, 8, &mut path) == wanted,
            "path {calls}"
        );
        assert!(rt;
            make_proof(&mut fails_from(calls), 0, 6, 8, &mut path) == wanted,
            "proof {calls}"
        );
    }
    let mut nodes = fails_from(1);
    assert!(rt; subtree(&mut nodes, 0, 6) == Some(Err(Failed)));
    assert!(rt; nodes.failed == 1);
}
