//! The steps that a mirror has a cosigner take.

ghost use Rattle.std.specs.Prelude.{◌≡◌, ◌≢◌};
ghost use Rattle.cosigner_core.specs.Keyless.{keyless_owner};
ghost use Rattle.cosigner_core.specs.Words.{cosigner_disk, cosigner_owner};
ghost use Rattle.cosigner_core.specs.declared.error.CosignError.TheVariants.{Append as NotAppended};
ghost use Rattle.mtc_command.specs.Answers.{ending_of, stop_ending};
ghost use Rattle.mtc_cosigner.specs.Works.{IsReadyCosigner};
ghost use Rattle.mtc_mirror_steps.specs.StepOutcomes.{mirror_advance_says, mirror_cosign_says};
ghost use Rattle.mtc_mirror_steps.specs.StepOutcomes.{mirror_step_ending};
ghost use Rattle.mtc_mirror_steps.specs.StepWorks.{HasTakenStep};

use cosigner_core::{Cosigner, KeylessCosigner};
use disk_core::Disk;
use hss_core::SigBuf;
use journal_core::AppendError;
use mirror_core::Mirror;
use mirror_cosigner::{MirrorStepError, advance, cosign};
use mtc_command::{Answer, Reason, Said, Stop, Stopped, refuse};
use mtc_cosigner::requests::{LONGEST_SIGNATURE, line_of_size, refuse_step};
use mtc_proof::ReservedSignature;
use std::alloc::Global;
use tree_core::TreeHash;

// Why a mirror has a cosigner that was opened just now take no step.
fn refuse_mirror_step<'a>(
    cosigner_name: &'a str,
    mirror_name: &'a str,
    why: MirrorStepError,
) -> Stop<'a>
    requires { why ≢ MirrorStepError.Cosign (NotAppended AppendError.Broken) }
    ensures { stop_ending result ≡ mirror_step_ending cosigner_name.now mirror_name.now why }
{
    let refused = Stopped::NotAllowed;
    match why {
        MirrorStepError::Beyond(size) => refuse(refused, Reason::with_number("Beyond", size)),
        MirrorStepError::NotMine { held, own } => {
            refuse(refused, Reason::with_hashes("NotMine", held, own))
        }
        MirrorStepError::BadSubtree => refuse(refused, Reason::named("BadSubtree")),
        MirrorStepError::Failed => Stop::Tiles(mirror_name),
        MirrorStepError::Cosign(why) => refuse_step(cosigner_name, why),
    }
}

/// The work of `mirror-advance S M SIZE`, which needs no key. The text is made before the record is
/// added, so that nothing takes memory after the append.
pub(crate) fn advance_on<'a, H: TreeHash, D: Disk>(
    alloc: Global,
    cosigner_name: &'a str,
    mirror_name: &'a str,
    cosigner: &mut KeylessCosigner<H, D>,
    mirror: &mut Mirror<H, D, D>,
    size: u64,
) -> Result<Answer, Stop<'a>>
    requires { IsReadyCosigner (keyless_owner cosigner.old) }
    ensures { HasTakenStep cosigner_name.now mirror_name.now (mirror_advance_says H.hash size)
        (keyless_owner cosigner.old) (keyless_owner cosigner.new).disk mirror.old mirror.new
        (ending_of result) }
{
    let text = line_of_size(alloc, size)?;
    match advance(mirror, cosigner, size) {
        Ok(()) => Ok(Answer {
            status: Said::Done,
            text,
        }),
        Err(why) => Err(refuse_mirror_step(cosigner_name, mirror_name, why)),
    }
}

/// The work of `mirror-cosign S M START END`. All memory is taken before the record is added, and
/// the signature is made after it.
pub(crate) fn cosign_on<'a, H: TreeHash, D: Disk>(
    alloc: Global,
    cosigner_name: &'a str,
    mirror_name: &'a str,
    cosigner: &mut Cosigner<H, D>,
    mirror: &mut Mirror<H, D, D>,
    start: u64,
    end: u64,
) -> Result<Answer, Stop<'a>>
    requires { IsReadyCosigner (cosigner_owner cosigner.old) }
    ensures { HasTakenStep cosigner_name.now mirror_name.now (mirror_cosign_says H.hash start end)
        (cosigner_owner cosigner.old) (cosigner_disk cosigner.new) mirror.old mirror.new
        (ending_of result) }
{
    let reserved = ReservedSignature::new(alloc, LONGEST_SIGNATURE)?;
    let mut signature = SigBuf::new();
    match cosign(mirror, cosigner, start, end, &mut signature) {
        Ok(()) => Ok(Answer {
            status: Said::Done,
            text: reserved.fill(cosigner.id().as_bytes(), signature.as_slice()),
        }),
        Err(why) => Err(refuse_mirror_step(cosigner_name, mirror_name, why)),
    }
}
