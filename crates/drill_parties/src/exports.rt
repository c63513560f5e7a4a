//! What a cosigner of a drill shows of itself.

ghost use Rattle.std.specs.Prelude.{◌≡◌, ◌≤◌, ◌^◌, Ok, Some, length, IfOk};
ghost use Rattle.std.specs.List.{count_by};
ghost use Rattle.cosigner_core.specs.Counts.{indices_of};
ghost use Rattle.cosigner_core.specs.ExportReading.{export_in};
ghost use Rattle.drill_parties.specs.CosignerViews.{IsDiskOf, IsExportOf, IsStill, records_shown};
ghost use Rattle.drill_parties.specs.Disks.{FailsNone, is_sign, signs_on};

use crate::cosigner_party::CosignerParty;
use cosigner_core::{Export, Step, read_export};
use disk_core::MemDisk;
use mtc_io::{Bytes, MemSink, Memory};
use std::alloc::Global;
use tree_core::TreeHash;

// An export is written in pieces of so many bytes at most.
const PIECE: usize = 4096;

impl<H: TreeHash> CosignerParty<H> {
    /// Its export, as it is written. It is read as the steps that its records say.
    pub fn export(&mut self, alloc: Global) -> Result<Bytes, Memory>
        ensures same { IsStill self.old self.new }
        ensures read { IfOk result (IsExportOf H.hash self.old) }
    {
        let mut out = MemSink::new(alloc, PIECE, Vec::new(alloc));
        match self.cosigner.export(&mut out) {
            Ok(()) => {}
            Err(_) => return Err(Memory),
        }
        let text = Bytes::copy_of(alloc, out.taken())?;
        Ok(text)
    }
}

/// What is read of the export of a cosigner. A file that is none is answered as out of memory.
pub fn kept_in<H: TreeHash>(alloc: Global, bytes: &[u8]) -> Result<Export, Memory>
    ensures { IfOk result (λ kept. export_in H.hash bytes.now ≡ Ok (Some kept)) }
{
    match read_export::<H>(alloc, bytes) {
        Ok(Some(kept)) => Ok(kept),
        _ => Err(Memory),
    }
}

fn is_sign(step: &Step) -> bool
    ensures { result ≡ is_sign step.now }
{
    matches!(step, Step::Sign { .. })
}

fn signs_among(steps: &[Step]) -> u64
    ensures { result ≡ count_by is_sign steps.now }
{
    steps.iter().filter(|step| is_sign(step)).count() as u64
}

// How many records of the journal of a cosigner are Signs, as its export shows.
fn signatures<H: TreeHash>(alloc: Global, party: &mut CosignerParty<H>) -> Result<u64, Memory>
    ensures same { IsStill party.old party.new }
    ensures count { IfOk result (λ count. count ≡ length (indices_of (records_shown party.old))) }
    ensures few { IfOk result (λ count. count ≤ 2 ^ 25) }
{
    let text = party.export(alloc)?;
    let kept = kept_in::<H>(alloc, text.as_slice())?;
    let count = signs_among(kept.steps.as_slice());
    Ok(count)
}

/// The device, which lists no call that fails, and found memory for each.
pub fn whole(disk: MemDisk) -> Result<MemDisk, Memory>
    ensures same { IfOk result (λ it. it ≡ disk) }
    ensures fails_none { IfOk result FailsNone }
{
    if !disk.failing().is_empty() || disk.failed_allocations() > 0 {
        return Err(Memory);
    }
    Ok(disk)
}

/// The device of a cosigner, and how many of its records are Signs.
pub(crate) fn into_output<H: TreeHash>(
    alloc: Global,
    party: CosignerParty<H>,
) -> Result<(MemDisk, u64), Memory>
    ensures disk { IfOk result (λ x. IsDiskOf H.hash party x.0) }
    ensures count { IfOk result (λ x. x.1 ≡ signs_on x.0) }
    ensures few { IfOk result (λ x. x.1 ≤ 2 ^ 25) }
{
    let mut party = party;
    let count = signatures(alloc, &mut party)?;
    let (disk, _stops) = party.into_disk();
    let disk = whole(disk)?;
    Ok((disk, count))
}
