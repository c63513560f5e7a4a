//! The work of a command on a cosigner whose journal is open: its own refusals, its text, and at
//! most one append, after which nothing takes memory.

ghost use Rattle.cosigner_core.specs.Keyless.{keyless_owner};
ghost use Rattle.mtc_command.specs.Answers.{ending_of};
ghost use Rattle.mtc_cosigner.specs.Works.{HasWorkedOnCosigner, IsReadyCosigner, StaysCosigner};
ghost use Rattle.mtc_cosigner.specs.Works.{cosigner_says};

use crate::child::child_on;
use crate::requests::{advance_on, cosign_on};
use cosigner_core::{AdvanceRequest, Cosigner, KeylessCosigner, SubtreeRequest};
use disk_core::Disk;
use journal_core::Refused;
use mtc_command::{Answer, Stop};
use std::alloc::Global;
use tree_core::TreeHash;

/// What a command does with a cosigner.
#[derive(Drop)]
pub enum Work<'r> {
    /// It holds the root of a larger log.
    Advance(AdvanceRequest<'r>),
    /// It has the next lower tree of its key.
    Child,
    /// It signs a subtree.
    Cosign(SubtreeRequest<'r>),
}

/// Carries out a command on the cosigner of a journal, and returns its device. It makes the key for
/// a signature alone. A failure of the device is reported with the journal's name.
#[tactic(auto, unfolding(crate::specs::Works::cosigner_says))]
pub(crate) fn carry_out<'a, H: TreeHash, D: Disk>(
    alloc: Global,
    journal: &'a str,
    mut keyless: KeylessCosigner<H, D>,
    work: &Work<'_>,
) -> (D, Result<Answer, Stop<'a>>)
    requires { IsReadyCosigner (keyless_owner keyless) }
    ensures works { HasWorkedOnCosigner D.Disk journal.now (cosigner_says H.hash work.now)
        (keyless_owner keyless) result.0 (ending_of result.1) }
    ensures valid { StaysCosigner D.Disk H.hash (cosigner_says H.hash work.now)
        (keyless_owner keyless) result.0 }
{
    match work {
        Work::Advance(request) => {
            let answer = advance_on(alloc, journal, &mut keyless, request);
            (keyless.into_disk(), answer)
        }
        Work::Child => {
            let answer = child_on(alloc, journal, &mut keyless);
            (keyless.into_disk(), answer)
        }
        Work::Cosign(request) => match Cosigner::with_key(alloc, keyless) {
            Ok(mut cosigner) => {
                let answer = cosign_on(alloc, journal, &mut cosigner, request);
                (cosigner.into_disk(), answer)
            }
            Err(Refused { disk, .. }) => (disk, Err(Stop::Memory)),
        },
    }
}
