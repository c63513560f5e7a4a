//! Certificates of the entries of a log, in any subtree of it and with signatures.

ghost use Rattle.std.specs.Prelude.{◌≡◌, IfSome, IfOk};
ghost use Rattle.issuance_log.specs.Words.{LogStays, log_disk, log_tiles_disk, modelled_by_both};
ghost use Rattle.issuance_log.specs.Words.{view_of};
ghost use Rattle.mtc_proof.specs.Proofs.{AreSignatures};
ghost use Rattle.authority_core.specs.Acceptance.{StoresAccept};
ghost use Rattle.authority_core.specs.Certificates.{cert_refusal, IsWritten, KeepsToRefusal};
ghost use Rattle.authority_core.specs.Certificates.{JournalCounts, TilesCounts};

use crate::writing::error::WriteError;
use crate::writing::item::written;
use disk_core::Disk;
use issuance_log::Log;
use mtc_io::Bytes;
use std::alloc::Global;
use tree_core::{TreeHash, subtree_ok};

// The signatures of a certificate have at most so many bytes.
const MOST_SIGNATURES: usize = 65_535;

/// Why no certificate of this log is written, by the tests alone.
#[tactic(auto, unfolding(crate::specs::Certificates::cert_refusal))]
pub(crate) fn refused<H: TreeHash, D: Disk, T: Disk>(
    log: &Log<H, D, T>,
    index: u64,
    start: u64,
    end: u64,
    signatures: &[u8],
) -> Option<WriteError>
    ensures { result ≡ cert_refusal (view_of log.now) index start end signatures.now }
{
    if log.size() <= index {
        Some(WriteError::NoSuchEntry)
    } else if index == 0 {
        Some(WriteError::NullEntry)
    } else if !subtree_ok(start, end) {
        Some(WriteError::BadSubtree)
    } else if index < start || end <= index {
        Some(WriteError::Outside)
    } else if log.size() < end {
        Some(WriteError::Beyond(log.size()))
    } else if signatures.len() > MOST_SIGNATURES {
        Some(WriteError::TooManySignatures)
    } else {
        None
    }
}

/// Writes the certificate of an entry: its fields, its key, its index as the serial number, and as
/// the signature its path in the subtree `[start, end)` of the log, with these signatures of
/// cosigners, or none (the draft on Merkle Tree Certificates, where it defines MTCProof). The call
/// only reads the disks of the log, which shows what it showed before.
///
/// If the entry names the log as its issuer and has no critical extension that is unknown, each
/// store that is set up for the log and this entry accepts the certificate, at each time of the
/// entry's validity. A store is set up so if it is valid, doesn't revoke the index, holds no other
/// hash for the subtree, and trusts it with the log's, or has rules which the signatures meet.
///
/// Errors, in the order of the tests: those of [`WriteError`] but `NotCovered`. After all tests a
/// disk may fail or memory be refused, and what comes first is answered.
#[tactic(auto, unfolding(crate::specs::Certificates::cert_refusal))]
pub fn cert<H: TreeHash, D: Disk, T: Disk>(
    alloc: Global,
    log: &mut Log<H, D, T>,
    index: u64,
    start: u64,
    end: u64,
    signatures: &[u8],
) -> Result<Bytes, WriteError>
    requires { AreSignatures signatures.now }
    ensures answer { KeepsToRefusal
        (cert_refusal (view_of log.old) index start end signatures.now) result }
    ensures written { IfOk result (λ bytes. IfSome (modelled_by_both log.old)
        (λ s. IsWritten H.hash s index start end signatures.now bytes)) }
    ensures accepted { IfOk result (λ bytes. IfSome (modelled_by_both log.old)
        (λ s. StoresAccept H.hash s index start end signatures.now bytes)) }
    ensures stays { LogStays log.old log.new }
    ensures journal { JournalCounts (D.faults (log_disk log.old)) (D.faults (log_disk log.new))
        result }
    ensures tiles { TilesCounts (T.faults (log_tiles_disk log.old))
        (T.faults (log_tiles_disk log.new)) result }
{
    if log.size() <= index {
        return Err(WriteError::NoSuchEntry);
    }
    if index == 0 {
        return Err(WriteError::NullEntry);
    }
    if !subtree_ok(start, end) {
        return Err(WriteError::BadSubtree);
    }
    if index < start || end <= index {
        return Err(WriteError::Outside);
    }
    if log.size() < end {
        return Err(WriteError::Beyond(log.size()));
    }
    if signatures.len() > MOST_SIGNATURES {
        return Err(WriteError::TooManySignatures);
    }
    written(alloc, log, index, start, end, signatures)
}
