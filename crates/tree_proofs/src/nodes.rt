//! Nodes of a tree as they are asked for.

ghost use Rattle.std.specs.Prelude.{◌≡◌, ℕ, ◌+◌, ◌*◌, ◌^◌, ◌<◌, ◌≤◌, true, List, length, Option};
ghost use Rattle.std.specs.Prelude.{IfSome, IfOk, OnOk};
ghost use Rattle.byte_formats.specs.Types.{Hash};
ghost use Rattle.mtc_io.specs.Counts.{HasCause};
ghost use Rattle.tree_core.specs.Subtree.{is_subtree};
ghost use Rattle.tree_proofs.specs.Full.{BeginsFull};
ghost use Rattle.tree_proofs.specs.Modelled.{HasRootAfter, IsRootOf};

use crate::Path;
use mtc_io::Failed;
use tree_core::{TreeHash, pair};

/// A list of leaf hashes whose full subtrees can be asked for. It may fail, and counts how often.
pub trait Nodes {
    /// The hash function of the tree.
    type H: TreeHash;

    /// The leaf hashes, if the model knows them.
    ghost leaves: { Self → Option (List Hash) };

    /// How many leaves there are.
    ghost count: { Self → ℕ };

    /// How often it has failed.
    ghost faults: { Self → ℕ };

    /// What else stays where nodes are asked for, said of the value before and of the value after.
    ghost stays: { Self → Self → Type 0 };

    /// How many leaves there are.
    fn size(&self) -> u64
        ensures { result ≡ count self.now };

    /// The hash of the `2^level` leaves from `place * 2^level` on. `Failed` comes only where the
    /// count of failures rose. Whether it fails or not, the list stays as it was, and so does what
    /// `stays` says.
    fn node(&mut self, level: u32, place: u64) -> Result<[u8; 32], Failed>
        requires { (place + 1) * 2 ^ level ≤ count self.old }
        ensures value { IfOk result
            (IsRootOf Self.H.hash (leaves self.old) (place * 2 ^ level) ((place + 1) * 2 ^ level)) }
        ensures list { leaves self.new ≡ leaves self.old }
        ensures count { count self.new ≡ count self.old }
        ensures stays { stays self.old self.new }
        ensures cause { HasCause (faults self.old) (faults self.new) result };

    /// If the model knows the list, it has that many leaves.
    ghost counted: { (n : Self) → IfSome (leaves n) (λ list. count n ≡ length list) };

    /// Without a call all stays.
    ghost stays_before: { (n : Self) → stays n n };

    /// What stays in two calls one after the other stays in both.
    ghost stays_on: { (a b c : Self) → stays a b → stays b c → stays a c };
}

// The largest full subtree that a subtree begins with: its level, and where it ends.
fn first_full(start: u64, end: u64) -> (u32, u64)
    requires { is_subtree start end ≡ true }
    ensures { BeginsFull start end result.0 result.1 }
{
    let level = (end - start).ilog2();
    (level, start + (1 << level))
}

/// The hash of the subtree `[start, end)`.
pub fn node_of<N: Nodes>(nodes: &mut N, start: u64, end: u64) -> Result<[u8; 32], Failed>
    requires valid { is_subtree start end ≡ true }
    requires within { end ≤ N.count nodes.old }
    ensures value { IfOk result (IsRootOf N.H.hash (N.leaves nodes.old) start end) }
    ensures list { N.leaves nodes.new ≡ N.leaves nodes.old }
    ensures count { N.count nodes.new ≡ N.count nodes.old }
    ensures stays { N.stays nodes.old nodes.new }
    ensures cause { HasCause (N.faults nodes.old) (N.faults nodes.new) result }
{
    let (level, middle) = first_full(start, end);
    let node = nodes.node(level, start >> level)?;
    if middle == end {
        return Ok(node);
    }
    let rest = node_of(nodes, middle, end)?;
    Ok(pair::<N::H>(&node, &rest))
}

// Puts the hash of the subtree `[start, end)` after the others.
pub(crate) fn push_node<N: Nodes>(
    nodes: &mut N,
    start: u64,
    end: u64,
    out: &mut Path,
) -> Result<(), Failed>
    requires valid { is_subtree start end ≡ true }
    requires within { end ≤ N.count nodes.old }
    requires capacity { length out.old < 128 }
    ensures pushed { OnOk result
        (HasRootAfter N.H.hash (N.leaves nodes.old) start end out.old out.new) }
    ensures list { N.leaves nodes.new ≡ N.leaves nodes.old }
    ensures count { N.count nodes.new ≡ N.count nodes.old }
    ensures stays { N.stays nodes.old nodes.new }
    ensures cause { HasCause (N.faults nodes.old) (N.faults nodes.new) result }
{
    out.push(&node_of(nodes, start, end)?);
    Ok(())
}
