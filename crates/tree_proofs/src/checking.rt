//! Testing a consistency proof.

ghost use Rattle.std.specs.Prelude.{◌≡◌, ◌≤◌, length, OnOk};
ghost use Rattle.tree_proofs.specs.Consistency.{consistency};

use crate::{ConsistError, opened};
use tree_core::{TreeHash, subtree_ok};

/// Tests a consistency proof of the subtree `[start, end)` in a list of `size` entries: whether it
/// gives the hash `node` for the subtree and `root` for the list (the draft on Merkle Tree
/// Certificates, where it verifies subtree consistency proofs). The proof's lowest hash comes
/// first.
///
/// Refuses, the first that holds: `BadSubtree` where the interval is no subtree, `Beyond` where it
/// ends above the size, `WrongLength` where the proof is not as long as the consistency proof of
/// that subtree, which has at most 65 hashes, `WrongNode` where it gives another hash for the
/// subtree, `WrongRoot` where it gives another root. If the subtree is one node of the tree, the
/// given hash is taken for it, so that a wrong one shows in the root.
pub fn check<H: TreeHash>(
    start: u64,
    end: u64,
    size: u64,
    node: &[u8; 32],
    root: &[u8; 32],
    proof: &[[u8; 32]],
) -> Result<(), ConsistError>
    ensures exact { result ≡ consistency H.hash start end size node.now root.now proof.now }
    ensures short { OnOk result (length proof.now ≤ 65) }
{
    if !subtree_ok(start, end) {
        return Err(ConsistError::BadSubtree);
    }
    if end > size {
        return Err(ConsistError::Beyond);
    }
    let Some(given) = opened::<H>(start, end, size, true, node, proof) else {
        return Err(ConsistError::WrongLength);
    };
    if given.subtree != *node {
        return Err(ConsistError::WrongNode);
    }
    if given.root != *root {
        return Err(ConsistError::WrongRoot);
    }
    Ok(())
}
