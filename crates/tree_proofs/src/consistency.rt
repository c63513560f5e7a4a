//! Making consistency proofs.

ghost use Rattle.std.specs.Prelude.{◌≡◌, ℕ, ◌+◌, ◌-◌, ◌^◌, ◌<◌, ◌≤◌, true, length, OnOk};
ghost use Rattle.mtc_io.specs.Counts.{HasCause};
ghost use Rattle.tree_core.specs.Subtree.{is_subtree};
ghost use Rattle.tree_proofs.specs.Modelled.{IsProofIn, IsProofOf};

use crate::nodes::push_node;
use crate::tree::split_between;
use crate::{Nodes, Path};
use mtc_io::Failed;

// Puts into `out` the proof of the part `[start, end)` in the leaves from `low` up to `high`. The
// reader knows the hash of the part where it is the whole subtree.
fn consist_in<N: Nodes>(
    nodes: &mut N,
    low: u64,
    high: u64,
    start: u64,
    end: u64,
    known: bool,
    out: &mut Path,
) -> Result<(), Failed>
    requires valid { is_subtree low high ≡ true }
    requires from { low ≤ start }
    requires some { start < end }
    requires inside { end ≤ high }
    requires within { high ≤ N.count nodes.old }
    ensures proof { OnOk result
        (IsProofIn N.H.hash (N.leaves nodes.old) low high start end known out.new) }
    ensures short { OnOk result
        ((height : ℕ) → high - low ≤ 2 ^ height → length out.new ≤ height + 1) }
    ensures list { N.leaves nodes.new ≡ N.leaves nodes.old }
    ensures count { N.count nodes.new ≡ N.count nodes.old }
    ensures stays { N.stays nodes.old nodes.new }
    ensures cause { HasCause (N.faults nodes.old) (N.faults nodes.new) result }
{
    if low == start && high == end {
        out.clear();
        if known {
            return Ok(());
        }
        return push_node(nodes, low, high, out);
    }
    let middle = split_between(low, high);
    if end <= middle {
        consist_in(nodes, low, middle, start, end, known, out)?;
        push_node(nodes, middle, high, out)
    } else if middle <= start {
        consist_in(nodes, middle, high, start, end, known, out)?;
        push_node(nodes, low, middle, out)
    } else {
        consist_in(nodes, middle, high, middle, end, false, out)?;
        push_node(nodes, low, middle, out)
    }
}

/// Puts into `out`, instead of what it held, the consistency proof of the subtree `[start, end)` in
/// the first `size` leaves (the draft on Merkle Tree Certificates, where it makes subtree
/// consistency proofs), the lowest hash first. It has at most one hash more than the list has
/// levels. The hashes in `out` mean nothing if the nodes failed.
pub fn consist<N: Nodes>(
    nodes: &mut N,
    start: u64,
    end: u64,
    size: u64,
    out: &mut Path,
) -> Result<(), Failed>
    requires valid { is_subtree start end ≡ true }
    requires inside { end ≤ size }
    requires within { size ≤ N.count nodes.old }
    ensures proof { OnOk result (IsProofOf N.H.hash (N.leaves nodes.old) start end size out.new) }
    ensures short { OnOk result ((height : ℕ) → size ≤ 2 ^ height → length out.new ≤ height + 1) }
    ensures list { N.leaves nodes.new ≡ N.leaves nodes.old }
    ensures count { N.count nodes.new ≡ N.count nodes.old }
    ensures stays { N.stays nodes.old nodes.new }
    ensures cause { HasCause (N.faults nodes.old) (N.faults nodes.new) result }
{
    consist_in(nodes, 0, size, start, end, true, out)
}
