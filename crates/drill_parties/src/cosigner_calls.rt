//! Calls of a cosigner that add a record.

ghost use Rattle.std.specs.Prelude.{IfOk};
ghost use Rattle.drill_parties.specs.CosignerCalls.{HasCalledCosigner, HasOpenedCosigner};
ghost use Rattle.drill_parties.specs.declared.cosigner_calls.CosignerCall.TheVariants.{Advance};
ghost use Rattle.drill_parties.specs.declared.cosigner_calls.CosignerCall.TheVariants.{Cosign};

use cosigner_core::{AdvanceRequest, CosignError, Cosigner, SubtreeRequest};
use disk_core::Disk;
use hss_core::SigBuf;
use journal_core::AppendError;
use mtc_io::Memory;
use std::alloc::Global;
use tree_core::TreeHash;

/// A call of a cosigner that adds a record.
#[derive(Clone, Copy, Debug)]
pub(crate) enum CosignerCall<'a> {
    /// It holds the root of a larger log.
    Advance(AdvanceRequest<'a>),
    /// It signs a subtree.
    Cosign(SubtreeRequest<'a>),
}

// Holds the root of a larger log. An error that isn't the device's is answered as out of memory.
fn advance_on<H: TreeHash, D: Disk>(
    cosigner: &mut Cosigner<H, D>,
    request: &AdvanceRequest<'_>,
) -> Result<bool, Memory>
    ensures { (out : _) → IfOk result (HasCalledCosigner H.hash (Advance request.now)
        cosigner.old cosigner.new out) }
{
    match cosigner.advance(request) {
        Ok(()) => Ok(true),
        Err(CosignError::Append(AppendError::Failed)) => Ok(false),
        Err(_) => Err(Memory),
    }
}

// Signs a subtree, likewise.
fn cosign_on<H: TreeHash, D: Disk>(
    cosigner: &mut Cosigner<H, D>,
    request: &SubtreeRequest<'_>,
    out: &mut SigBuf,
) -> Result<bool, Memory>
    ensures { IfOk result (HasCalledCosigner H.hash (Cosign request.now) cosigner.old cosigner.new
        out.new) }
{
    match cosigner.cosign(request, out) {
        Ok(()) => Ok(true),
        Err(CosignError::Append(AppendError::Failed)) => Ok(false),
        Err(_) => Err(Memory),
    }
}

/// Makes the call: whether it was done, or its device failed. A signature is put into `out`.
pub(crate) fn call_cosigner<H: TreeHash, D: Disk>(
    cosigner: &mut Cosigner<H, D>,
    call: &CosignerCall<'_>,
    out: &mut SigBuf,
) -> Result<bool, Memory>
    ensures { IfOk result (HasCalledCosigner H.hash call.now cosigner.old cosigner.new out.new) }
{
    match call {
        CosignerCall::Advance(request) => advance_on(cosigner, request),
        CosignerCall::Cosign(request) => cosign_on(cosigner, request, out),
    }
}

/// Opens the cosigner on a device that represents one. Each error is answered as out of memory.
pub(crate) fn open_cosigner<H: TreeHash, D: Disk + Drop>(
    alloc: Global,
    disk: D,
) -> Result<Cosigner<H, D>, Memory>
    ensures { IfOk result (HasOpenedCosigner H.hash disk) }
{
    match Cosigner::open(alloc, disk) {
        Ok(cosigner) => Ok(cosigner),
        Err(_) => Err(Memory),
    }
}
