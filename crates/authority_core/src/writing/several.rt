//! The certificates of several entries of a log, in one run over it.

ghost use Rattle.std.specs.Prelude.{◌≡◌, ◌-◌, ◌≤◌, None, IfOk, IfErr, IfSome};
ghost use Rattle.std.specs.Prelude.{OnOk};
ghost use Rattle.issuance_log.specs.Words.{LogStays, log_disk, log_tiles_disk, modelled_by_both};
ghost use Rattle.issuance_log.specs.Words.{view_of};
ghost use Rattle.mtc_proof.specs.Proofs.{AreSignatures};
ghost use Rattle.authority_core.specs.Certificates.{cert_refusal, light_refusal};
ghost use Rattle.authority_core.specs.Several.{AddsCertificate, HoldsEach, IsAcceptable};
ghost use Rattle.authority_core.specs.Several.{SeveralCountJournal, SeveralCountTiles};
ghost use Rattle.authority_core.specs.Several.{SeveralKeepLightlyTo, SeveralKeepTo, certs_refusal};
ghost use Rattle.authority_core.specs.Several.{IsLastRefusal, IsLightlyAcceptable};
ghost use Rattle.authority_core.specs.Several.{light_certs_refusal};
ghost use Rattle.authority_core.specs.Several.{refusal_from};
ghost use Rattle.landmarks.specs.Landmarks.{landmarks_of};

use crate::writing::certificate::{cert, refused};
use crate::writing::error::{SeveralError, several_error};
use crate::writing::light::{light_cert, light_refused};
use crate::writing::pem::append_pem;
use disk_core::Disk;
use issuance_log::Log;
use landmarks::{Landmarks, of_marks};
use mtc_io::Bytes;
use std::alloc::Global;
use tree_core::TreeHash;

// The first refusal at an index from `first` up to `last`.
#[tactic(auto, unfolding(crate::specs::Several::refusal_from))]
fn first_refused<H: TreeHash, D: Disk, T: Disk>(
    log: &Log<H, D, T>,
    first: u64,
    last: u64,
    start: u64,
    end: u64,
    signatures: &[u8],
) -> Option<SeveralError>
    requires { first ≤ last }
    ensures { result ≡ refusal_from
        (λ index. cert_refusal (view_of log.now) index start end signatures.now) (last - first)
        first }
{
    for index in first..last {
        if let Some(why) = refused(log, index, start, end, signatures) {
            return Some(SeveralError::OfEntry(why, index));
        }
    }
    None
}

// The same without signatures.
#[tactic(auto, unfolding(crate::specs::Several::refusal_from))]
fn first_light_refused<H: TreeHash, D: Disk, T: Disk>(
    log: &Log<H, D, T>,
    landmarks: &Landmarks,
    first: u64,
    last: u64,
) -> Option<SeveralError>
    requires order { first ≤ last }
    requires landmarks { landmarks.now
        ≡ landmarks_of (view_of log.now).marks (view_of log.now).settings.max_active }
    ensures { result ≡ refusal_from (light_refusal (view_of log.now)) (last - first) first }
{
    for index in first..last {
        if let Some(why) = light_refused(log, landmarks, index) {
            return Some(SeveralError::OfEntry(why, index));
        }
    }
    None
}

// Appends the certificate of one entry.
fn append_cert<H: TreeHash, D: Disk, T: Disk>(
    alloc: Global,
    log: &mut Log<H, D, T>,
    text: &mut Bytes,
    index: u64,
    start: u64,
    end: u64,
    signatures: &[u8],
) -> Result<(), SeveralError>
    requires signed { AreSignatures signatures.now }
    requires allowed { cert_refusal (view_of log.old) index start end signatures.now ≡ None }
    ensures written { OnOk result (IfSome (modelled_by_both log.old) (λ s. AddsCertificate
        (IsAcceptable H.hash s start end signatures.now index) text.old text.new)) }
    ensures refused { IfErr result IsLastRefusal }
    ensures stays { LogStays log.old log.new }
    ensures journal { SeveralCountJournal (D.faults (log_disk log.old))
        (D.faults (log_disk log.new)) result }
    ensures tiles { SeveralCountTiles (T.faults (log_tiles_disk log.old))
        (T.faults (log_tiles_disk log.new)) result }
{
    match cert(alloc, log, index, start, end, signatures) {
        Ok(der) => {
            append_pem(alloc, text, der.as_slice())?;
            Ok(())
        }
        Err(why) => Err(several_error(why, index)),
    }
}

// Appends that of one entry without signatures.
fn append_light_cert<H: TreeHash, D: Disk, T: Disk>(
    alloc: Global,
    log: &mut Log<H, D, T>,
    text: &mut Bytes,
    index: u64,
) -> Result<(), SeveralError>
    requires { light_refusal (view_of log.old) index ≡ None }
    ensures written { OnOk result (IfSome (modelled_by_both log.old) (λ s. AddsCertificate
        (IsLightlyAcceptable H.hash s index) text.old text.new)) }
    ensures refused { IfErr result IsLastRefusal }
    ensures stays { LogStays log.old log.new }
    ensures journal { SeveralCountJournal (D.faults (log_disk log.old))
        (D.faults (log_disk log.new)) result }
    ensures tiles { SeveralCountTiles (T.faults (log_tiles_disk log.old))
        (T.faults (log_tiles_disk log.new)) result }
{
    match light_cert(alloc, log, index) {
        Ok(der) => {
            append_pem(alloc, text, der.as_slice())?;
            Ok(())
        }
        Err(why) => Err(several_error(why, index)),
    }
}

// Those of the entries from `first` up to `last`, where no index has a refusal.
fn certs_between<H: TreeHash, D: Disk, T: Disk>(
    alloc: Global,
    log: &mut Log<H, D, T>,
    first: u64,
    last: u64,
    start: u64,
    end: u64,
    signatures: &[u8],
) -> Result<Bytes, SeveralError>
    requires signed { AreSignatures signatures.now }
    requires order { first ≤ last }
    requires allowed { refusal_from
        (λ index. cert_refusal (view_of log.old) index start end signatures.now) (last - first)
        first ≡ None }
    ensures written { IfOk result (λ text. IfSome (modelled_by_both log.old)
        (λ s. HoldsEach (IsAcceptable H.hash s start end signatures.now) first last text)) }
    ensures refused { IfErr result IsLastRefusal }
    ensures stays { LogStays log.old log.new }
    ensures journal { SeveralCountJournal (D.faults (log_disk log.old))
        (D.faults (log_disk log.new)) result }
    ensures tiles { SeveralCountTiles (T.faults (log_tiles_disk log.old))
        (T.faults (log_tiles_disk log.new)) result }
{
    let mut text = Bytes::new(alloc);
    for index in first..last {
        append_cert(alloc, log, &mut text, index, start, end, signatures)?;
    }
    Ok(text)
}

// Those without signatures.
fn light_certs_between<H: TreeHash, D: Disk, T: Disk>(
    alloc: Global,
    log: &mut Log<H, D, T>,
    first: u64,
    last: u64,
) -> Result<Bytes, SeveralError>
    requires order { first ≤ last }
    requires allowed { refusal_from (light_refusal (view_of log.old)) (last - first) first ≡ None }
    ensures written { IfOk result (λ text. IfSome (modelled_by_both log.old)
        (λ s. HoldsEach (IsLightlyAcceptable H.hash s) first last text)) }
    ensures refused { IfErr result IsLastRefusal }
    ensures stays { LogStays log.old log.new }
    ensures journal { SeveralCountJournal (D.faults (log_disk log.old))
        (D.faults (log_disk log.new)) result }
    ensures tiles { SeveralCountTiles (T.faults (log_tiles_disk log.old))
        (T.faults (log_tiles_disk log.new)) result }
{
    let mut text = Bytes::new(alloc);
    for index in first..last {
        append_light_cert(alloc, log, &mut text, index)?;
    }
    Ok(text)
}

/// Writes the certificates of the entries from `first` up to `last`, without it, in a subtree and
/// with signatures, each as [`cert`] writes it: as PEM, one after the other. The call only reads
/// the disks of the log, which shows what it showed before. So each store that is set up for one of
/// the entries accepts its certificate.
///
/// Errors, in the order of the tests: `NothingNew` where `first` isn't below `last`; the first
/// refusal of [`cert`] at the first index that has one. After the tests of all indexes a disk may
/// fail or memory be refused, and what comes first is answered.
#[tactic(auto, unfolding(crate::specs::Several::certs_refusal))]
pub fn certs<H: TreeHash, D: Disk, T: Disk>(
    alloc: Global,
    log: &mut Log<H, D, T>,
    first: u64,
    last: u64,
    start: u64,
    end: u64,
    signatures: &[u8],
) -> Result<Bytes, SeveralError>
    requires { AreSignatures signatures.now }
    ensures answer { SeveralKeepTo
        (certs_refusal (view_of log.old) first last start end signatures.now) result }
    ensures written { IfOk result (λ text. IfSome (modelled_by_both log.old)
        (λ s. HoldsEach (IsAcceptable H.hash s start end signatures.now) first last text)) }
    ensures stays { LogStays log.old log.new }
    ensures journal { SeveralCountJournal (D.faults (log_disk log.old))
        (D.faults (log_disk log.new)) result }
    ensures tiles { SeveralCountTiles (T.faults (log_tiles_disk log.old))
        (T.faults (log_tiles_disk log.new)) result }
{
    if first >= last {
        return Err(SeveralError::NothingNew);
    }
    match first_refused(log, first, last, start, end, signatures) {
        Some(why) => Err(why),
        None => certs_between(alloc, log, first, last, start, end, signatures),
    }
}

/// Writes the certificates of the entries from `first` up to `last`, without it, that need no
/// signature, each as [`light_cert`] writes it: as PEM, one after the other. The call only reads
/// the disks of the log, which shows what it showed before. So each store that trusts the subtree
/// of the landmark accepts the certificate.
///
/// Errors, in the order of the tests: `NothingNew` where `first` isn't below `last`; the first
/// refusal of [`light_cert`] at the first index that has one. `Memory` may come before the latter.
/// After the tests of all indexes a disk may fail or memory be refused, and what comes first is
/// answered.
#[tactic(auto, unfolding(crate::specs::Several::light_certs_refusal))]
pub fn light_certs<H: TreeHash, D: Disk, T: Disk>(
    alloc: Global,
    log: &mut Log<H, D, T>,
    first: u64,
    last: u64,
) -> Result<Bytes, SeveralError>
    ensures answer { SeveralKeepLightlyTo
        (light_certs_refusal (view_of log.old) first last) result }
    ensures written { IfOk result (λ text. IfSome (modelled_by_both log.old)
        (λ s. HoldsEach (IsLightlyAcceptable H.hash s) first last text)) }
    ensures stays { LogStays log.old log.new }
    ensures journal { SeveralCountJournal (D.faults (log_disk log.old))
        (D.faults (log_disk log.new)) result }
    ensures tiles { SeveralCountTiles (T.faults (log_tiles_disk log.old))
        (T.faults (log_tiles_disk log.new)) result }
{
    if first >= last {
        return Err(SeveralError::NothingNew);
    }
    log.law_sound();
    let landmarks = of_marks(alloc, log.marks(), log.settings().max_active)?;
    match first_light_refused(log, &landmarks, first, last) {
        Some(why) => Err(why),
        None => light_certs_between(alloc, log, first, last),
    }
}
