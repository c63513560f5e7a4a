//! What an inclusion path evaluates to.

ghost use Rattle.std.specs.Prelude.{◌≡◌, ◌≤◌, length, OnOk};
ghost use Rattle.tree_core.specs.Evaluation.{evaluation, parent_hash};

use crate::{EvalError, TreeHash, pair, subtree_ok};

// The node above the node at this index of its level and its sibling.
fn parent<H: TreeHash>(place: u64, node: &[u8; 32], sibling: &[u8; 32]) -> [u8; 32]
    ensures { result ≡ parent_hash H.hash place node.now sibling.now }
{
    if place % 2 == 0 {
        pair::<H>(node, sibling)
    } else {
        pair::<H>(sibling, node)
    }
}

/// The hash of the subtree `[start, end)` that an inclusion path gives, from the leaf hash of the
/// entry at `index` (RFC 9162, section 2.1.3.2). The path's first hash is the sibling of the
/// leaf.
///
/// Refuses, the first that holds: `BadSubtree` where the interval is no subtree, `Outside` where
/// the index is not in it, `WrongLength` where the path is not as long as the inclusion path of
/// that index, which has at most 64 hashes.
pub fn evaluate<H: TreeHash>(
    leaf: &[u8; 32],
    index: u64,
    start: u64,
    end: u64,
    path: &[[u8; 32]],
) -> Result<[u8; 32], EvalError>
    ensures exact { result ≡ evaluation H.hash leaf.now index start end path.now }
    ensures short { OnOk result (length path.now ≤ 64) }
{
    if !subtree_ok(start, end) {
        return Err(EvalError::BadSubtree);
    }
    if index < start || end <= index {
        return Err(EvalError::Outside);
    }
    // The index of the node on its level, and the last index there. If the node is the last one of
    // its level and has an even index, it has no sibling there.
    let mut place = index - start;
    let mut last = end - 1 - start;
    let mut node = *leaf;
    let mut used = 0;
    'levels: while last > 0 {
        if place % 2 == 1 || place < last {
            if used == path.len() {
                return Err(EvalError::WrongLength);
            }
            node = parent::<H>(place, &node, &path[used]);
            used += 1;
        }
        place /= 2;
        last /= 2;
    }
    if used < path.len() {
        return Err(EvalError::WrongLength);
    }
    Ok(node)
}
