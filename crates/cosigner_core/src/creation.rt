//! The journal of a new cosigner.

ghost use Rattle.std.specs.Prelude.{◌≡◌, ◌≢◌, [], ◌∷◌, Ok, IfSome, IfOk, IfErr};
ghost use Rattle.byte_formats.specs.Types.{HashFunction};
ghost use Rattle.disk_core.specs.Times.{OnlyReads};
ghost use Rattle.journal_core.specs.Packed.{first_body};
ghost use Rattle.journal_core.specs.Starts.{HasStarted, IsNotStarted};
ghost use Rattle.lms_core.specs.Heights.{IsSigningHeight};
ghost use Rattle.cosigner_core.specs.Folds.{cosigner_of, new_cosigner};
ghost use Rattle.cosigner_core.specs.Records.{cosigner_record};

use crate::settings::CosignerSettings;
use crate::step_record::cosigner_record;
use disk_core::Disk;
use hss_core::Secret;
use journal_core::{FirstRecord, Journal, Refused, StartError};
use mtc_io::Memory;
use std::alloc::Global;

/// Packs the one record of a new cosigner, before there is a disk: a journal that is started with
/// it takes no further memory. The record holds the secret from which the key is made, and makes
/// the cosigner that holds no entries and has signed nothing.
pub fn pack(
    alloc: Global,
    settings: &CosignerSettings,
    secret: &Secret,
) -> Result<FirstRecord, Memory>
    requires small { IsSigningHeight settings.now.lms }
    requires low { IfSome settings.now.low IsSigningHeight }
    ensures body { IfOk result (λ it. first_body it ≡ cosigner_record settings.now secret.now) }
    ensures valid { (h : HashFunction)
        → cosigner_of h (cosigner_record settings.now secret.now ∷ [])
        ≡ Ok (new_cosigner h settings.now secret.now) }
{
    let record = cosigner_record(alloc, settings, secret)?;
    FirstRecord::pack(alloc, record.as_slice())
}

/// Begins the journal of a new cosigner on an empty disk. At Ok a crash leaves the journal, and its
/// one record makes the cosigner that holds no entries and has signed nothing.
///
/// Errors, in the order of the tests: `Memory`, `Failed`, `NotEmpty` where the disk holds bytes. A
/// refusal returns the disk; one that holds bytes was only read.
pub fn create<D: Disk>(
    alloc: Global,
    disk: D,
    settings: &CosignerSettings,
    secret: &Secret,
) -> Result<Journal<D>, Refused<D, StartError>>
    requires small { IsSigningHeight settings.now.lms }
    requires low { IfSome settings.now.low IsSigningHeight }
    ensures ok { IfOk result (HasStarted (cosigner_record settings.now secret.now) disk) }
    ensures err { IfErr result (λ e. IsNotStarted D.Disk disk e.disk e.why) }
    ensures spared { IfErr result (λ e. IfSome (D.contents disk)
        (λ b. b ≢ [] → OnlyReads D.Disk disk e.disk)) }
    ensures valid { (h : HashFunction)
        → cosigner_of h (cosigner_record settings.now secret.now ∷ [])
        ≡ Ok (new_cosigner h settings.now secret.now) }
{
    match pack(alloc, settings, secret) {
        Ok(packed) => packed.start(disk),
        Err(Memory) => Err(Refused {
            disk,
            why: StartError::Memory,
        }),
    }
}
