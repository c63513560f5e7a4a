//! A mirror has a cosigner sign a subtree of its items.

ghost use Rattle.std.specs.Prelude.{◌≡◌, ◌≢◌, [], Err, IfSome, OnErr};
ghost use Rattle.cosigner_core.specs.Words.{cosigner_owner};
ghost use Rattle.cosigner_core.specs.declared.error.CosignError.TheVariants.{BadProof};
ghost use Rattle.mirror_core.specs.Words.{MirrorAsksTiles, mirror_both_records, mirror_by_both};
ghost use Rattle.mirror_core.specs.Words.{mirror_disk, mirror_tiles_disk, mirror_view};
ghost use Rattle.mirror_cosigner.specs.Agreement.{LeavesAllAgreed};
ghost use Rattle.mirror_cosigner.specs.Refusals.{MirrorStepCounts};
ghost use Rattle.mirror_cosigner.specs.Works.{CosignsBySome, MakesSubtree, mirror_cosigns};

use crate::comparing::compare_held;
use crate::error::MirrorStepError;
use crate::hashing::{hash_of, proof_of};
use cosigner_core::{Cosigner, SubtreeRequest};
use disk_core::Disk;
use hss_core::SigBuf;
use mirror_core::Mirror;
use tree_core::{TreeHash, subtree_ok};
use tree_proofs::{Checkpoint, Path};

/// The hash of a subtree, and its proof in what is held.
#[derive(Drop)]
pub(crate) struct Signing {
    pub(crate) hash: [u8; 32],
    pub(crate) proof: Path,
}

// The hash of a subtree of the first items, and its proof in what is held, if that is of the
// mirror's first items and the subtree lies within it.
fn make_signing<H: TreeHash, D: Disk, T: Disk>(
    mirror: &mut Mirror<H, D, T>,
    held: &Checkpoint,
    start: u64,
    end: u64,
) -> Result<Signing, MirrorStepError>
    ensures made { MakesSubtree H.hash (mirror_by_both mirror.old) (mirror_view mirror.old)
        held.now start end result }
    ensures asks { MirrorAsksTiles mirror.old mirror.new }
    ensures cause { MirrorStepCounts (T.faults (mirror_tiles_disk mirror.old))
        (T.faults (mirror_tiles_disk mirror.new)) result }
{
    compare_held(mirror, held)?;
    if !subtree_ok(start, end) {
        return Err(MirrorStepError::BadSubtree);
    }
    if end > held.size {
        return Err(MirrorStepError::Beyond(held.size));
    }
    let hash = hash_of(mirror, start, end)?;
    let proof = proof_of(mirror, start, end, held.size)?;
    Ok(Signing { hash, proof })
}

/// Has a cosigner sign the subtree `[start, end)` of the items of a mirror, by its next one-time
/// key: the signature is the whole of `out`. The mirror computes the hash and its proof in what is
/// held from its items, once it has compared what is held with them. At Ok a crash leaves the
/// records of the cosigner with the Sign; at any time of the call it leaves the old records, or
/// these and that one. The journal of the mirror isn't called, and the disk of its tiles only read.
///
/// It keeps what the records of both have in common: if all that a crash may leave of both journals
/// agrees before the call, so does all that it may leave since then.
///
/// It asks for memory only to retain the nodes inside a tile that it reads. If that is refused, the
/// nodes are hashed one by one, and the answer is the same.
///
/// Errors, in the order of the tests: `NotMine` where what is held is not of the mirror's first
/// items; `BadSubtree` where the interval is no subtree; `Beyond` with the held size where the
/// subtree ends above it; and what [`Cosigner::cosign`] refuses, but never `BadProof`, if the model
/// knows the bytes of both disks of the mirror. `Failed`, where the disk of the tiles failed, may
/// come instead of any of these. After each of them `out` is empty. A refusal leaves the cosigner
/// as that call says, and the mirror as it was.
pub fn cosign<H: TreeHash, D: Disk, T: Disk, C: Disk>(
    mirror: &mut Mirror<H, D, T>,
    cosigner: &mut Cosigner<H, C>,
    start: u64,
    end: u64,
    out: &mut SigBuf,
) -> Result<(), MirrorStepError>
    ensures known { IfSome (mirror_by_both mirror.old) (λ s.
        mirror_cosigns C.Disk H.hash s start end (cosigner_owner cosigner.old)
        (cosigner_owner cosigner.new) out.new result) }
    ensures some { CosignsBySome C.Disk H.hash (mirror_by_both mirror.old)
        (mirror_view mirror.old) start end (cosigner_owner cosigner.old)
        (cosigner_owner cosigner.new) out.new result }
    ensures never { IfSome (mirror_by_both mirror.old)
        (λ s. result ≢ Err (MirrorStepError.Cosign BadProof)) }
    ensures nothing { OnErr result (out.new ≡ []) }
    ensures agree { IfSome (mirror_both_records mirror.old) (λ shown.
        LeavesAllAgreed D.Disk C.Disk H.hash shown (mirror_disk mirror.old) (mirror_disk mirror.new)
        (cosigner_owner cosigner.old) (cosigner_owner cosigner.new)) }
    ensures asks { MirrorAsksTiles mirror.old mirror.new }
    ensures cause { MirrorStepCounts (T.faults (mirror_tiles_disk mirror.old))
        (T.faults (mirror_tiles_disk mirror.new)) result }
{
    out.clear();
    let (held, root) = cosigner.held();
    let signing = make_signing(mirror, &Checkpoint { size: held, root }, start, end)?;
    let request = SubtreeRequest {
        log: mirror.log().as_bytes(),
        start,
        end,
        hash: signing.hash,
        proof: signing.proof.as_slice(),
    };
    cosigner.cosign(&request, out)?;
    Ok(())
}
