//! What a consistency proof gives, by the definition's recursion from the root down.

ghost use Rattle.std.specs.Prelude.{◌≡◌, ◌<◌, ◌≤◌, option_map};
ghost use Rattle.tree_proofs.specs.Open.{both_right_of, open_of, open_whole, root_left_of};
ghost use Rattle.tree_proofs.specs.Open.{root_right_of};

use crate::Opened;
use crate::tree::split;
use tree_core::{TreeHash, pair};

// The hashes where the subtree is the whole list.
fn whole(known: bool, node: &[u8; 32], proof: &[[u8; 32]]) -> Option<Opened>
    ensures { result ≡ open_whole known node.now proof.now }
{
    let root = match (known, proof) {
        (true, []) => *node,
        (false, [only]) => *only,
        _ => return None,
    };
    Some(Opened {
        subtree: root,
        root,
    })
}

// Those of a list, by those of its left part and the root of its right part.
fn root_left<H: TreeHash>(left: Option<Opened>, right: &[u8; 32]) -> Option<Opened>
    ensures { result ≡ option_map (root_left_of H.hash right.now) left }
{
    let left = left?;
    Some(Opened {
        subtree: left.subtree,
        root: pair::<H>(&left.root, right),
    })
}

// Those of a list, by the root of its left part and those of its right part, in which the subtree
// lies.
fn root_right<H: TreeHash>(left: &[u8; 32], right: Option<Opened>) -> Option<Opened>
    ensures { result ≡ option_map (root_right_of H.hash left.now) right }
{
    let right = right?;
    Some(Opened {
        subtree: right.subtree,
        root: pair::<H>(left, &right.root),
    })
}

// The same where the subtree holds the left part too.
fn both_right<H: TreeHash>(left: &[u8; 32], right: Option<Opened>) -> Option<Opened>
    ensures { result ≡ option_map (both_right_of H.hash left.now) right }
{
    let right = right?;
    Some(Opened {
        subtree: pair::<H>(left, &right.subtree),
        root: pair::<H>(left, &right.root),
    })
}

/// The hash of the subtree `[start, end)` and the root of a list of `size` entries that a
/// consistency proof gives, its lowest hash first. `node` is the subtree's own hash, and is read
/// only where it is `known`. None where the proof is not as long as the consistency proof of that
/// interval, or the interval begins above 0 and goes beyond a split.
pub fn opened<H: TreeHash>(
    start: u64,
    end: u64,
    size: u64,
    known: bool,
    node: &[u8; 32],
    proof: &[[u8; 32]],
) -> Option<Opened>
    requires order { start < end }
    requires within { end ≤ size }
    ensures { result ≡ open_of H.hash start end size known node.now proof.now }
{
    if start == 0 && end == size {
        return whole(known, node, proof);
    }
    let (sibling, rest) = proof.split_last()?;
    let middle = split(size);
    if end <= middle {
        return root_left::<H>(opened::<H>(start, end, middle, known, node, rest), sibling);
    }
    let (last, count) = (end - middle, size - middle);
    if middle <= start {
        return root_right::<H>(
            sibling,
            opened::<H>(start - middle, last, count, known, node, rest),
        );
    }
    if start > 0 {
        return None;
    }
    both_right::<H>(sibling, opened::<H>(0, last, count, false, node, rest))
}
