//! Certificates of the entries of a log by its landmarks, without signatures.

ghost use Rattle.std.specs.Prelude.{◌≡◌, IfOk, IfSome};
ghost use Rattle.landmarks.specs.Landmarks.{landmarks_of};
ghost use Rattle.issuance_log.specs.Words.{LogStays, log_disk, log_tiles_disk, modelled_by_both};
ghost use Rattle.issuance_log.specs.Words.{view_of};
ghost use Rattle.authority_core.specs.Acceptance.{StoresAcceptLightly};
ghost use Rattle.authority_core.specs.Certificates.{covering_in, HoldsEntry, IsLightlyWritten};
ghost use Rattle.authority_core.specs.Certificates.{KeepsToLightRefusal, light_refusal};
ghost use Rattle.authority_core.specs.Certificates.{JournalCounts, TilesCounts};

use crate::writing::error::WriteError;
use crate::writing::item::written;
use disk_core::Disk;
use issuance_log::Log;
use landmarks::{Landmarks, covering, of_marks};
use mtc_io::{Bytes, Memory};
use std::alloc::Global;
use tree_core::{Span, TreeHash};

// The subtree of an active landmark of the log that holds the entry.
fn covering_subtree<H: TreeHash, D: Disk, T: Disk>(
    alloc: Global,
    log: &Log<H, D, T>,
    index: u64,
) -> Result<Option<Span>, Memory>
    ensures exact { IfOk result (λ span. span ≡ covering_in (view_of log.now) index) }
    ensures holds { IfOk result (λ span. IfSome span
        (HoldsEntry (view_of log.now).size index)) }
{
    log.law_sound();
    let landmarks = of_marks(alloc, log.marks(), log.settings().max_active)?;
    Ok(covering(&landmarks, index))
}

/// Why no certificate without signatures is written of a log with these landmarks, by the tests
/// alone.
#[tactic(auto, unfolding(crate::specs::Certificates::light_refusal))]
pub(crate) fn light_refused<H: TreeHash, D: Disk, T: Disk>(
    log: &Log<H, D, T>,
    landmarks: &Landmarks,
    index: u64,
) -> Option<WriteError>
    requires { landmarks.now
        ≡ landmarks_of (view_of log.now).marks (view_of log.now).settings.max_active }
    ensures { result ≡ light_refusal (view_of log.now) index }
{
    if log.size() <= index {
        Some(WriteError::NoSuchEntry)
    } else if index == 0 {
        Some(WriteError::NullEntry)
    } else if covering(landmarks, index).is_none() {
        Some(WriteError::NotCovered)
    } else {
        None
    }
}

/// Writes the certificate of an entry that needs no signature: its fields, its key, its index as
/// the serial number, and as the signature its path in the subtree that holds it, of the least
/// landmark of the log above it (the draft on Merkle Tree Certificates, where it defines
/// landmarks). The call only reads the disks of the log, which shows what it showed before.
///
/// If the entry names the log as its issuer and has no critical extension that is unknown, each
/// valid store for the log that trusts this subtree with the log's hash, and doesn't revoke the
/// index, accepts the certificate at each time of the entry's validity.
///
/// Errors, in the order of the tests: `NoSuchEntry`, `NullEntry`, and `NotCovered` where no
/// landmark is above the entry, or the least one isn't active any more. `Memory` may come before
/// `NotCovered`, and a failure of a disk after it.
#[tactic(auto, unfolding(crate::specs::Certificates::light_refusal))]
pub fn light_cert<H: TreeHash, D: Disk, T: Disk>(
    alloc: Global,
    log: &mut Log<H, D, T>,
    index: u64,
) -> Result<Bytes, WriteError>
    ensures answer { KeepsToLightRefusal (light_refusal (view_of log.old) index) result }
    ensures written { IfOk result (λ bytes. IfSome (modelled_by_both log.old)
        (λ s. IsLightlyWritten H.hash s index bytes)) }
    ensures accepted { IfOk result (λ bytes. IfSome (modelled_by_both log.old)
        (λ s. StoresAcceptLightly H.hash s index bytes)) }
    ensures stays { LogStays log.old log.new }
    ensures journal { JournalCounts (D.faults (log_disk log.old)) (D.faults (log_disk log.new))
        result }
    ensures tiles { TilesCounts (T.faults (log_tiles_disk log.old))
        (T.faults (log_tiles_disk log.new)) result }
{
    if log.size() <= index {
        return Err(WriteError::NoSuchEntry);
    }
    if index == 0 {
        return Err(WriteError::NullEntry);
    }
    log.law_sound();
    match covering_subtree(alloc, log, index)? {
        Some(span) => written(alloc, log, index, span.start, span.end, &[]),
        None => Err(WriteError::NotCovered),
    }
}
