//! Hashes and proofs over the first entries of a log. Only the device of its tiles is called.

ghost use Rattle.std.specs.Prelude.{◌≡◌, ◌<◌, ◌≤◌, true, take, IfOk, IfSome};
ghost use Rattle.issuance_log.specs.Words.{LogAsksTiles, log_tiles_disk, modelled_by_both, view_of};
ghost use Rattle.mtc_io.specs.Counts.{HasCause};
ghost use Rattle.tree_core.specs.Path.{part_of};
ghost use Rattle.tree_core.specs.Subtree.{is_subtree};
ghost use Rattle.tree_core.specs.Tree.{tree_hash};
ghost use Rattle.mtc_authority.specs.RequestOutcomes.{growth_at, prefix_proof};

use disk_core::Disk;
use issuance_log::Log;
use mtc_io::Failed;
use tree_core::TreeHash;
use tree_proofs::{Path, node_of};

// The hash of the subtree `[start, end)` of the entries.
pub fn hash_of<H: TreeHash, D: Disk>(
    log: &mut Log<H, D, D>,
    start: u64,
    end: u64,
) -> Result<[u8; 32], Failed>
    requires valid { is_subtree start end ≡ true }
    requires within { end ≤ (view_of log.old).size }
    ensures hash { IfOk result (λ hash. IfSome (modelled_by_both log.old)
        (λ s. hash ≡ tree_hash H.hash (part_of s.entries start end))) }
    ensures asks { LogAsksTiles log.old log.new }
    ensures cause { HasCause (D.faults (log_tiles_disk log.old)) (D.faults (log_tiles_disk log.new))
        result }
{
    node_of(log, start, end)
}

// The tree hash of the first `size` entries (RFC 9162, section 2.1.1).
pub fn root_of<H: TreeHash, D: Disk>(log: &mut Log<H, D, D>, size: u64) -> Result<[u8; 32], Failed>
    requires some { 0 < size }
    requires within { size ≤ (view_of log.old).size }
    ensures hash { IfOk result (λ hash. IfSome (modelled_by_both log.old)
        (λ s. hash ≡ tree_hash H.hash (take size s.entries))) }
    ensures asks { LogAsksTiles log.old log.new }
    ensures cause { HasCause (D.faults (log_tiles_disk log.old)) (D.faults (log_tiles_disk log.new))
        result }
{
    hash_of(log, 0, size)
}

// The consistency proof of the subtree `[start, end)` in the first `size` entries.
pub fn proof_of<H: TreeHash, D: Disk>(
    log: &mut Log<H, D, D>,
    start: u64,
    end: u64,
    size: u64,
) -> Result<Path, Failed>
    requires valid { is_subtree start end ≡ true }
    requires inside { end ≤ size }
    requires within { size ≤ (view_of log.old).size }
    ensures proof { IfOk result (λ proof. IfSome (modelled_by_both log.old)
        (λ s. proof ≡ prefix_proof H.hash s.entries start end size)) }
    ensures asks { LogAsksTiles log.old log.new }
    ensures cause { HasCause (D.faults (log_tiles_disk log.old)) (D.faults (log_tiles_disk log.new))
        result }
{
    let mut proof = Path::new();
    match tree_proofs::consist(log, start, end, size, &mut proof) {
        Ok(()) => Ok(proof),
        Err(Failed) => Err(Failed),
    }
}

// The proof that the first `old` entries are among the first `new` ones. For none there is nothing
// to prove.
pub fn growth_of<H: TreeHash, D: Disk>(
    log: &mut Log<H, D, D>,
    old: u64,
    new: u64,
) -> Result<Path, Failed>
    requires more { old < new }
    requires within { new ≤ (view_of log.old).size }
    ensures proof { IfOk result (λ proof. IfSome (modelled_by_both log.old)
        (λ s. proof ≡ growth_at H.hash s.entries old new)) }
    ensures asks { LogAsksTiles log.old log.new }
    ensures cause { HasCause (D.faults (log_tiles_disk log.old)) (D.faults (log_tiles_disk log.new))
        result }
{
    if old == 0 {
        Ok(Path::new())
    } else {
        proof_of(log, 0, old, new)
    }
}
