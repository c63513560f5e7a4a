//! Laws of a mirror and its cosigner: the clauses are the laws, and the functions do nothing.

ghost use Rattle.std.specs.Prelude.{◌≡◌, ◌≢◌, ℕ, Bool, false, Some, IfSome, Result};
ghost use Rattle.byte_formats.specs.Types.{HashFunction, Text};
ghost use Rattle.cosigner_core.specs.Folds.{CosignerState};
ghost use Rattle.cosigner_core.specs.declared.error.CosignError.TheVariants.{BadProof};
ghost use Rattle.mirror_core.specs.Folds.{MirrorState, MirrorView};
ghost use Rattle.mirror_core.specs.Words.{MirrorAppends, MirrorReadsAndAppends, MirrorStays};
ghost use Rattle.mirror_core.specs.Words.{mirror_broken, mirror_records};
ghost use Rattle.mirror_core.specs.declared.error.MirrorError.{MirrorError};
ghost use Rattle.mirror_core.specs.declared.mirror.Mirror.{Mirror as Mirrored};
ghost use Rattle.mirror_cosigner.specs.CrashStates.{LeavesItsRecords};
ghost use Rattle.mirror_cosigner.specs.Laws.{AgreeingAreNeverForeign, AgreeingHeldIsMine};
ghost use Rattle.mirror_cosigner.specs.Laws.{AgreeingListsAreOne};
ghost use Rattle.mirror_cosigner.specs.Laws.{AgreementBegins, AgreementGrows};
ghost use Rattle.mirror_cosigner.specs.Refusals.{mirror_advance_refusal, mirror_cosign_refusal};
ghost use Rattle.mirror_cosigner.specs.declared.error.MirrorStepError.TheVariants.{Cosign};

use disk_core::Disk;
use mirror_core::Mirror;
use mirror_core::laws::law_records_determine_the_items;
use tree_core::TreeHash;

/// The records of a fresh mirror and of a fresh cosigner of one log agree.
pub fn law_agreement_begins()
    ensures { (h : HashFunction) → AgreementBegins h }
{}

/// Records that agree do so with one more of the mirror, with the Advance and the Sign that the
/// mirror has the cosigner append, and with a Child.
pub fn law_agreement_grows<H: TreeHash>()
    ensures { AgreementGrows H.hash }
{
    law_records_determine_the_items();
}

/// Records that agree are of one list of entries, that of the mirror. So the mirror never refuses
/// what the cosigner holds, and an audit of the mirror's entries with the cosigner's export never
/// answers that the list is another one, if the certificate was accepted by cosigners.
pub fn law_agreeing_lists_are_one()
    ensures one { (h : HashFunction) → AgreeingListsAreOne h }
    ensures mine { (h : HashFunction) → AgreeingHeldIsMine h }
    ensures never_foreign { (h : HashFunction) → AgreeingAreNeverForeign h }
{}

/// The proofs of a mirror's own requests check: where the mirror refuses nothing, the cosigner's
/// refusal is never `BadProof`.
pub fn law_requests_prove()
    ensures advance { (h : HashFunction) (s : MirrorState) (signer : CosignerState) (broken : Bool)
        (end size : ℕ) → mirror_advance_refusal h s signer broken end size
        ≢ Some (Cosign BadProof) }
    ensures cosign { (h : HashFunction) (s : MirrorState) (signer : CosignerState) (broken : Bool)
        (end start stop : ℕ) → mirror_cosign_refusal h s signer broken end start stop
        ≢ Some (Cosign BadProof) }
{}

/// Where no append of a mirror has failed, each crash leaves its records.
pub fn law_sound_mirrors_leave_their_records<H: TreeHash, D: Disk, T: Disk>(
    mirror: &Mirror<H, D, T>,
)
    ensures { mirror_broken mirror.now ≡ false → LeavesItsRecords mirror.now }
{
    let _ = mirror.size();
}

/// A call of a mirror that only reads, and one that appends a record, whether it fails or not,
/// leave the mirror's records, or these and one more, as far as the model knows them, if a crash
/// before the call does. So each mirror that was opened has what [`advance`](crate::advance) and
/// [`cosign`](crate::cosign) ask of it to keep an agreement.
pub fn law_mirrors_leave_one_record_more_at_most<H: TreeHash, D: Disk, T: Disk>()
    ensures stays { (old new : Mirrored H D T H.TreeHash D.Disk T.Disk) → MirrorStays old new
        → LeavesItsRecords old → LeavesItsRecords new }
    ensures appends { (body : Text) (seen : MirrorView → MirrorView)
        (next : MirrorState → MirrorState) (old new : Mirrored H D T H.TreeHash D.Disk T.Disk)
        (result : Result ℕ MirrorError) → MirrorAppends body seen next old new result
        → LeavesItsRecords old → IfSome (mirror_records old) (λ list. LeavesItsRecords new) }
    ensures takes { (body : Text) (seen : MirrorView → MirrorView)
        (next : MirrorState → MirrorState) (old new : Mirrored H D T H.TreeHash D.Disk T.Disk)
        (result : Result ℕ MirrorError) → MirrorReadsAndAppends body seen next old new result
        → LeavesItsRecords old → IfSome (mirror_records old) (λ list. LeavesItsRecords new) }
{}
