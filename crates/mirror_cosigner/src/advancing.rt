//! A mirror has a cosigner hold the root of its first items.

ghost use Rattle.std.specs.Prelude.{◌≢◌, ◌↔◌, ◌<◌, Err, IfSome, IsErrOf};
ghost use Rattle.cosigner_core.specs.Keyless.{keyless_owner};
ghost use Rattle.cosigner_core.specs.declared.error.CosignError.TheVariants.{BadProof};
ghost use Rattle.mirror_core.specs.Words.{MirrorAsksTiles, mirror_both_records, mirror_by_both};
ghost use Rattle.mirror_core.specs.Words.{mirror_disk, mirror_tiles_disk, mirror_view};
ghost use Rattle.mirror_cosigner.specs.Agreement.{LeavesAllAgreed};
ghost use Rattle.mirror_cosigner.specs.Refusals.{MirrorStepCounts};
ghost use Rattle.mirror_cosigner.specs.Works.{AdvancesBySome, MakesAdvance, mirror_advances};

use crate::comparing::compare_held;
use crate::error::MirrorStepError;
use crate::hashing::{growth_of, root_of};
use cosigner_core::{AdvanceRequest, KeylessCosigner};
use disk_core::Disk;
use mirror_core::Mirror;
use tree_core::TreeHash;
use tree_proofs::{Checkpoint, Path};

/// The root of the first items, and the proof that what is held is a prefix of them.
#[derive(Drop)]
pub(crate) struct Growth {
    pub(crate) root: [u8; 32],
    pub(crate) proof: Path,
}

// The root of the first `size` items, and the proof that leads there from what is held, if that is
// of the mirror's first items.
fn make_growth<H: TreeHash, D: Disk, T: Disk>(
    mirror: &mut Mirror<H, D, T>,
    held: &Checkpoint,
    size: u64,
) -> Result<Growth, MirrorStepError>
    ensures made { MakesAdvance H.hash (mirror_by_both mirror.old) (mirror_view mirror.old)
        held.now size result }
    ensures asks { MirrorAsksTiles mirror.old mirror.new }
    ensures cause { MirrorStepCounts (T.faults (mirror_tiles_disk mirror.old))
        (T.faults (mirror_tiles_disk mirror.new)) result }
{
    let own_size = mirror.size();
    if size > own_size {
        return Err(MirrorStepError::Beyond(own_size));
    }
    compare_held(mirror, held)?;
    let root = root_of(mirror, size)?;
    let proof = growth_of(mirror, held.size, size)?;
    Ok(Growth { root, proof })
}

/// Has a cosigner hold the root of the first `size` items of a mirror, with the proof that what it
/// holds is a prefix of them. The mirror computes both from its items, once it has compared what is
/// held with them. At Ok a crash leaves the records of the cosigner with the Advance; at any time
/// of the call it leaves the old records, or these and that one. The journal of the mirror isn't
/// called, and the disk of its tiles only read.
///
/// It keeps what the records of both have in common: if all that a crash may leave of both journals
/// agrees before the call, so does all that it may leave since then.
///
/// It asks for memory only to retain the nodes inside a tile that it reads. If that is refused, the
/// nodes are hashed one by one, and the answer is the same.
///
/// Errors, in the order of the tests: `Beyond` with the mirror's size where it has fewer items;
/// `NotMine` where what is held is not of its first items; and what [`KeylessCosigner::advance`]
/// refuses, but never `BadProof`, if the model knows the bytes of both disks of the mirror.
/// `Failed`, where the disk of the tiles failed, may come instead of any of these but `Beyond`. A
/// refusal leaves the cosigner as that call says, and the mirror as it was.
pub fn advance<H: TreeHash, D: Disk, T: Disk, C: Disk>(
    mirror: &mut Mirror<H, D, T>,
    cosigner: &mut KeylessCosigner<H, C>,
    size: u64,
) -> Result<(), MirrorStepError>
    ensures known { IfSome (mirror_by_both mirror.old) (λ s.
        mirror_advances C.Disk H.hash s size (keyless_owner cosigner.old)
        (keyless_owner cosigner.new) result) }
    ensures some { AdvancesBySome C.Disk H.hash (mirror_by_both mirror.old)
        (mirror_view mirror.old) size (keyless_owner cosigner.old) (keyless_owner cosigner.new)
        result }
    ensures never { IfSome (mirror_by_both mirror.old)
        (λ s. result ≢ Err (MirrorStepError.Cosign BadProof)) }
    ensures beyond { IsErrOf result (MirrorStepError.Beyond (mirror_view mirror.old).size)
        ↔ ((mirror_view mirror.old).size < size) }
    ensures agree { IfSome (mirror_both_records mirror.old) (λ shown.
        LeavesAllAgreed D.Disk C.Disk H.hash shown (mirror_disk mirror.old) (mirror_disk mirror.new)
        (keyless_owner cosigner.old) (keyless_owner cosigner.new)) }
    ensures asks { MirrorAsksTiles mirror.old mirror.new }
    ensures cause { MirrorStepCounts (T.faults (mirror_tiles_disk mirror.old))
        (T.faults (mirror_tiles_disk mirror.new)) result }
{
    let (held, root) = cosigner.held();
    let growth = make_growth(mirror, &Checkpoint { size: held, root }, size)?;
    let request = AdvanceRequest {
        log: mirror.log().as_bytes(),
        size,
        root: growth.root,
        proof: growth.proof.as_slice(),
    };
    cosigner.advance(&request)?;
    Ok(())
}
