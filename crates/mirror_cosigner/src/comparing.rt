//! What a cosigner holds, compared with the first items of a mirror.

ghost use Rattle.std.specs.Prelude.{◌≡◌, take, IfOk, IfSome};
ghost use Rattle.mirror_core.specs.Folds.{entries_in_mirror};
ghost use Rattle.mirror_core.specs.Words.{MirrorAsksTiles, mirror_by_both, mirror_tiles_disk};
ghost use Rattle.mirror_core.specs.Words.{mirror_view};
ghost use Rattle.mtc_io.specs.Counts.{HasCause};
ghost use Rattle.tree_core.specs.Tree.{tree_hash};
ghost use Rattle.mirror_cosigner.specs.Refusals.{MirrorStepCounts, is_mine};
ghost use Rattle.mirror_cosigner.specs.Works.{ComparesHeld};

use crate::error::MirrorStepError;
use crate::hashing::root_of;
use disk_core::Disk;
use mirror_core::Mirror;
use mtc_io::Failed;
use tree_core::TreeHash;
use tree_proofs::Checkpoint;

// The tree hash of as many of the first entries as are held, as far as they are there.
fn own_root<H: TreeHash, D: Disk, T: Disk>(
    mirror: &mut Mirror<H, D, T>,
    held: u64,
) -> Result<[u8; 32], Failed>
    ensures hash { IfOk result (λ hash. IfSome (mirror_by_both mirror.old)
        (λ s. hash ≡ tree_hash H.hash (take held (entries_in_mirror s)))) }
    ensures asks { MirrorAsksTiles mirror.old mirror.new }
    ensures cause { HasCause (T.faults (mirror_tiles_disk mirror.old))
        (T.faults (mirror_tiles_disk mirror.new)) result }
{
    let size = mirror.size();
    let there = if held <= size { held } else { size };
    root_of(mirror, there)
}

// Whether what is held is of the first items of a mirror with so many, where their own root is
// this one.
fn is_mine(size: u64, own: &[u8; 32], held: &Checkpoint) -> bool
    ensures { result ≡ is_mine size own.now held.now }
{
    held.size <= size && *own == held.root
}

/// Compares what is held with the first items.
pub(crate) fn compare_held<H: TreeHash, D: Disk, T: Disk>(
    mirror: &mut Mirror<H, D, T>,
    held: &Checkpoint,
) -> Result<(), MirrorStepError>
    ensures compares { ComparesHeld H.hash (mirror_by_both mirror.old) (mirror_view mirror.old)
        held.now result }
    ensures asks { MirrorAsksTiles mirror.old mirror.new }
    ensures cause { MirrorStepCounts (T.faults (mirror_tiles_disk mirror.old))
        (T.faults (mirror_tiles_disk mirror.new)) result }
{
    let size = mirror.size();
    let own = own_root(mirror, held.size)?;
    if !is_mine(size, &own, held) {
        return Err(MirrorStepError::NotMine {
            held: held.root,
            own,
        });
    }
    Ok(())
}
