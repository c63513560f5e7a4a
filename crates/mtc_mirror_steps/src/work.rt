//! What a command has a mirror ask of a cosigner, whose journals are open: its own refusals, its
//! text, and at most one append to the journal of the cosigner, after which nothing takes memory.

ghost use Rattle.cosigner_core.specs.Keyless.{keyless_owner};
ghost use Rattle.mtc_command.specs.Answers.{ending_of};
ghost use Rattle.mtc_cosigner.specs.Works.{IsReadyCosigner};
ghost use Rattle.mtc_mirror_steps.specs.StepOutcomes.{mirror_request_says};
ghost use Rattle.mtc_mirror_steps.specs.StepWorks.{HasTakenStep};

use crate::steps::{advance_on, cosign_on};
use cosigner_core::{Cosigner, KeylessCosigner};
use disk_core::Disk;
use journal_core::Refused;
use mirror_core::Mirror;
use mtc_command::{Answer, Stop};
use std::alloc::Global;
use tree_core::TreeHash;

/// What a mirror asks of a cosigner.
#[derive(Clone, Copy)]
pub(crate) enum MirrorRequest {
    /// To hold the root of so many of the first items.
    Advance(u64),
    /// To sign the subtree with this start and end.
    Cosign(u64, u64),
}

/// Has the cosigner of a journal carry out a request of the mirror of another one, and returns its
/// device. It makes the key for a signature alone. A failure of a device is reported with the name
/// of its file.
pub(crate) fn carry_out<'a, H: TreeHash, D: Disk>(
    alloc: Global,
    cosigner_name: &'a str,
    mirror_name: &'a str,
    mut keyless: KeylessCosigner<H, D>,
    mirror: &mut Mirror<H, D, D>,
    request: MirrorRequest,
) -> (D, Result<Answer, Stop<'a>>)
    requires { IsReadyCosigner (keyless_owner keyless) }
    ensures { HasTakenStep cosigner_name.now mirror_name.now (mirror_request_says H.hash request)
        (keyless_owner keyless) result.0 mirror.old mirror.new (ending_of result.1) }
{
    match request {
        MirrorRequest::Advance(size) => {
            let answer = advance_on(
                alloc,
                cosigner_name,
                mirror_name,
                &mut keyless,
                mirror,
                size,
            );
            (keyless.into_disk(), answer)
        }
        MirrorRequest::Cosign(start, end) => match Cosigner::with_key(alloc, keyless) {
            Ok(mut cosigner) => {
                let answer = cosign_on(
                    alloc,
                    cosigner_name,
                    mirror_name,
                    &mut cosigner,
                    mirror,
                    start,
                    end,
                );
                (cosigner.into_disk(), answer)
            }
            Err(Refused { disk, .. }) => (disk, Err(Stop::Memory)),
        },
    }
}
