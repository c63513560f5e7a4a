//! Hashes and proofs over the first items of a mirror. Only the disk of its tiles is called.

ghost use Rattle.std.specs.Prelude.{◌≡◌, ◌≤◌, true, take, IfOk, IfSome};
ghost use Rattle.mirror_core.specs.Folds.{entries_in_mirror};
ghost use Rattle.mirror_core.specs.Words.{MirrorAsksTiles, mirror_by_both, mirror_tiles_disk};
ghost use Rattle.mirror_core.specs.Words.{mirror_view};
ghost use Rattle.mtc_io.specs.Counts.{HasCause};
ghost use Rattle.tree_core.specs.Path.{part_of};
ghost use Rattle.tree_core.specs.Subtree.{is_subtree};
ghost use Rattle.tree_core.specs.Tree.{tree_hash};
ghost use Rattle.tree_proofs.specs.Proof.{consistency_proof};
ghost use Rattle.mirror_cosigner.specs.Requests.{growth_proof};

use disk_core::Disk;
use mirror_core::Mirror;
use mtc_io::Failed;
use tree_core::TreeHash;
use tree_proofs::{Checkpoint, Path, node_of};

/// The hash of the subtree `[start, end)` of the entries.
pub(crate) fn hash_of<H: TreeHash, D: Disk, T: Disk>(
    mirror: &mut Mirror<H, D, T>,
    start: u64,
    end: u64,
) -> Result<[u8; 32], Failed>
    requires valid { is_subtree start end ≡ true }
    requires within { end ≤ (mirror_view mirror.old).size }
    ensures hash { IfOk result (λ hash. IfSome (mirror_by_both mirror.old)
        (λ s. hash ≡ tree_hash H.hash (part_of (entries_in_mirror s) start end))) }
    ensures asks { MirrorAsksTiles mirror.old mirror.new }
    ensures cause { HasCause (T.faults (mirror_tiles_disk mirror.old))
        (T.faults (mirror_tiles_disk mirror.new)) result }
{
    node_of(mirror, start, end)
}

/// The tree hash of the first `size` entries (RFC 9162, section 2.1.1).
pub(crate) fn root_of<H: TreeHash, D: Disk, T: Disk>(
    mirror: &mut Mirror<H, D, T>,
    size: u64,
) -> Result<[u8; 32], Failed>
    requires { size ≤ (mirror_view mirror.old).size }
    ensures hash { IfOk result (λ hash. IfSome (mirror_by_both mirror.old)
        (λ s. hash ≡ tree_hash H.hash (take size (entries_in_mirror s)))) }
    ensures asks { MirrorAsksTiles mirror.old mirror.new }
    ensures cause { HasCause (T.faults (mirror_tiles_disk mirror.old))
        (T.faults (mirror_tiles_disk mirror.new)) result }
{
    if size == 0 {
        let empty = Checkpoint::empty::<H>();
        return Ok(empty.root);
    }
    hash_of(mirror, 0, size)
}

/// The consistency proof of the subtree `[start, end)` in the first `size` entries.
pub(crate) fn proof_of<H: TreeHash, D: Disk, T: Disk>(
    mirror: &mut Mirror<H, D, T>,
    start: u64,
    end: u64,
    size: u64,
) -> Result<Path, Failed>
    requires valid { is_subtree start end ≡ true }
    requires inside { end ≤ size }
    requires within { size ≤ (mirror_view mirror.old).size }
    ensures proof { IfOk result (λ proof. IfSome (mirror_by_both mirror.old)
        (λ s. proof ≡ consistency_proof H.hash start end true (take size (entries_in_mirror s)))) }
    ensures asks { MirrorAsksTiles mirror.old mirror.new }
    ensures cause { HasCause (T.faults (mirror_tiles_disk mirror.old))
        (T.faults (mirror_tiles_disk mirror.new)) result }
{
    let mut proof = Path::new();
    match tree_proofs::consist(mirror, start, end, size, &mut proof) {
        Ok(()) => Ok(proof),
        Err(Failed) => Err(Failed),
    }
}

/// The proof that the first `old` entries are among the first `new` ones. For none there is nothing
/// to prove, and where they aren't fewer nothing can be proved.
pub(crate) fn growth_of<H: TreeHash, D: Disk, T: Disk>(
    mirror: &mut Mirror<H, D, T>,
    old: u64,
    new: u64,
) -> Result<Path, Failed>
    requires { new ≤ (mirror_view mirror.old).size }
    ensures proof { IfOk result (λ proof. IfSome (mirror_by_both mirror.old)
        (λ s. proof ≡ growth_proof H.hash (entries_in_mirror s) old new)) }
    ensures asks { MirrorAsksTiles mirror.old mirror.new }
    ensures cause { HasCause (T.faults (mirror_tiles_disk mirror.old))
        (T.faults (mirror_tiles_disk mirror.new)) result }
{
    if old == 0 || new <= old {
        Ok(Path::new())
    } else {
        proof_of(mirror, 0, old, new)
    }
}
