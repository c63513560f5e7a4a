//! Making inclusion paths.

ghost use Rattle.std.specs.Prelude.{◌≡◌, ℕ, ◌-◌, ◌^◌, ◌<◌, ◌≤◌, true, length, OnOk};
ghost use Rattle.mtc_io.specs.Counts.{HasCause};
ghost use Rattle.tree_core.specs.Subtree.{is_subtree};
ghost use Rattle.tree_proofs.specs.Modelled.{IsPathOf};

use crate::nodes::push_node;
use crate::tree::split_between;
use crate::{Nodes, Path};
use mtc_io::Failed;

/// Puts into `out`, instead of what it held, the inclusion path of the entry at `index` in the
/// subtree `[start, end)` (RFC 9162, section 2.1.3.1), the sibling of the leaf first. It has no
/// more hashes than the subtree has levels. The hashes in `out` mean nothing if the nodes failed.
pub fn include<N: Nodes>(
    nodes: &mut N,
    index: u64,
    start: u64,
    end: u64,
    out: &mut Path,
) -> Result<(), Failed>
    requires valid { is_subtree start end ≡ true }
    requires from { start ≤ index }
    requires below { index < end }
    requires within { end ≤ N.count nodes.old }
    ensures path { OnOk result (IsPathOf N.H.hash (N.leaves nodes.old) index start end out.new) }
    ensures short { OnOk result
        ((height : ℕ) → end - start ≤ 2 ^ height → length out.new ≤ height) }
    ensures list { N.leaves nodes.new ≡ N.leaves nodes.old }
    ensures count { N.count nodes.new ≡ N.count nodes.old }
    ensures stays { N.stays nodes.old nodes.new }
    ensures cause { HasCause (N.faults nodes.old) (N.faults nodes.new) result }
{
    if end - start == 1 {
        out.clear();
        return Ok(());
    }
    let middle = split_between(start, end);
    if index < middle {
        include(nodes, index, start, middle, out)?;
        push_node(nodes, middle, end, out)
    } else {
        include(nodes, index, middle, end, out)?;
        push_node(nodes, start, middle, out)
    }
}
