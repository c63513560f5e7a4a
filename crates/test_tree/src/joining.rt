//! Two proofs joined: to the made proof of the subtree in the longer list, where both are made.

use crate::known::{N0_4, N0_6, N4_6, N6_8};
use mtc_io::Memory;
use quarrel_core::{Joined, join};
use std::alloc::Global;
use std::test::Fail;
use tree_core::{Sha, TreeHash, leaf, subtree_ok};
use tree_proofs::{Checkpoint, Listed, Nodes, Path, consist, node_of};

// Two proofs joined; none where the subtree isn't in the old entries, or these are more than the
// new ones.
fn joined<H: TreeHash>(
    alloc: Global,
    start: u64,
    end: u64,
    node: &[u8; 32],
    old: &Checkpoint,
    new: u64,
    first: &[[u8; 32]],
    second: &[[u8; 32]],
) -> Option<Result<Joined, Memory>> {
    if start >= end || end > old.size || old.size > new {
        return None;
    }
    Some(join::<H>(alloc, start, end, node, old, new, first, second))
}

// The answer is this proof.
fn is_proof(answer: &Option<Result<Joined, Memory>>, wanted: &[[u8; 32]]) -> bool {
    match answer {
        Some(Ok(Joined::Proof(proof))) => proof.as_slice() == wanted,
        _ => false,
    }
}

#[test]
fn proofs_of_known_nodes_join(rt: HostRuntime) {
    let old = Checkpoint {
        size: 6,
        root: N0_6,
    };
    let second = [N4_6, N6_8, N0_4];
    let answer = joined::<Sha>(rt.alloc(), 4, 6, &N4_6, &old, 8, &[N0_4], &second);
    assert!(rt; is_proof(&answer, &[N6_8, N0_4]));
}

// The answer is that a proof is too short.
fn is_neither(answer: &Option<Result<Joined, Memory>>) -> bool {
    match answer {
        Some(Ok(Joined::Neither)) => true,
        _ => false,
    }
}

#[test]
fn a_proof_that_is_too_short_is_not_joined(rt: HostRuntime) {
    let old = Checkpoint {
        size: 6,
        root: N0_6,
    };
    let answer = joined::<Sha>(rt.alloc(), 4, 6, &N4_6, &old, 8, &[N0_4], &[]);
    assert!(rt; is_neither(&answer));
}

// So many nodes, whose entries differ.
fn nodes(alloc: Global, count: u8) -> Result<Listed<Sha>, Memory> {
    let mut nodes = Listed::new(alloc);
    for number in 0..count {
        nodes.push(&leaf::<Sha>(&[number]))?;
    }
    Ok(nodes)
}

// The hash of a subtree of the nodes; none of what is no subtree of theirs.
fn subtree<N: Nodes>(nodes: &mut N, start: u64, end: u64) -> Option<[u8; 32]> {
    if !subtree_ok(start, end) || end > nodes.size() {
        return None;
    }
    node_of(nodes, start, end).ok()
}

// The proof of a subtree in the first nodes; none of what is no subtree of theirs.
fn proof_of<N: Nodes>(nodes: &mut N, start: u64, end: u64, size: u64) -> Option<Path> {
    if !subtree_ok(start, end) || end > size || size > nodes.size() {
        return None;
    }
    let mut proof = Path::new();
    consist(nodes, start, end, size, &mut proof).ok()?;
    Some(proof)
}

// Whether the made proofs of a subtree in `old` nodes, and of these in `new` ones, join to the made
// proof.
fn is_made(
    alloc: Global,
    nodes: &mut Listed<Sha>,
    start: u64,
    end: u64,
    old: u64,
    new: u64,
) -> Option<bool> {
    let node = subtree(nodes, start, end)?;
    let held = Checkpoint {
        size: old,
        root: subtree(nodes, 0, old)?,
    };
    let first = proof_of(nodes, start, end, old)?;
    let second = proof_of(nodes, 0, old, new)?;
    let wanted = proof_of(nodes, start, end, new)?;
    let (first, second) = (first.as_slice(), second.as_slice());
    let answer = joined::<Sha>(alloc, start, end, &node, &held, new, first, second);
    Some(is_proof(&answer, wanted.as_slice()))
}

// How many subtrees of the first `old` nodes join so to the first `new` ones.
fn count_of_subtrees(alloc: Global, nodes: &mut Listed<Sha>, old: u64, new: u64) -> u64 {
    let mut count = 0u64;
    for start in 0..old {
        for end in start..=old {
            if is_made(alloc, nodes, start, end, old, new) == Some(true) {
                count = count.saturating_add(1);
            }
        }
    }
    count
}

// The same of each two numbers of nodes up to a largest one.
fn count_of_joined(alloc: Global, nodes: &mut Listed<Sha>, largest: u64) -> u64 {
    let mut count = 0u64;
    for new in 0..=largest {
        for old in 0..new {
            count = count.saturating_add(count_of_subtrees(alloc, nodes, old, new));
        }
    }
    count
}

#[test]
fn made_proofs_join_to_the_made_proof(rt: HostRuntime) -> Result<(), Fail> {
    let mut nodes = nodes(rt.alloc(), 33)?;
    let count = count_of_joined(rt.alloc(), &mut nodes, 33);
    assert!(rt; count == 16728, "{count:?}");
    Ok(())
}
