//! The certificate of an item of a log.

ghost use Rattle.std.specs.Prelude.{◌≡◌, ◌^◌, ◌<◌, ◌≤◌, length, true, IfSome, IfOk, IfErr};
ghost use Rattle.cert_fields.specs.Given.{given};
ghost use Rattle.issuance_log.specs.Records.{IsShort};
ghost use Rattle.issuance_log.specs.Words.{LogStays, log_disk, log_tiles_disk, modelled_by_both};
ghost use Rattle.issuance_log.specs.Words.{view_of};
ghost use Rattle.log_entry.specs.Views.{tbs_parts};
ghost use Rattle.mtc_proof.specs.Proofs.{AreSignatures};
ghost use Rattle.tree_core.specs.Subtree.{is_subtree};
ghost use Rattle.authority_core.specs.Acceptance.{StoresAccept};
ghost use Rattle.authority_core.specs.Certificates.{IsCertificateOf, IsOfDisks, IsWritten};
ghost use Rattle.authority_core.specs.Certificates.{JournalCounts, TilesCounts, parts_with};

use crate::writing::error::WriteError;
use crate::writing::proof::proof_of;
use cert_fields::{CertParts, write};
use disk_core::Disk;
use issuance_log::{Log, LogError};
use log_entry::{Entry, TbsEntry, key_matches, read_entry};
use mtc_io::{Bytes, Memory};
use std::alloc::Global;
use tree_core::TreeHash;

// What the certificate of an entry says, with its key, index and proof.
fn parts_with(
    alloc: Global,
    index: u64,
    entry: &TbsEntry,
    key: &[u8],
    proof: Bytes,
) -> Result<CertParts, Memory>
    ensures { IfOk result (λ parts. given parts
        ≡ parts_with index (tbs_parts entry.now) key.now proof) }
{
    Ok(CertParts {
        serial: index,
        issuer: Bytes::copy_of(alloc, entry.issuer)?,
        validity: entry.validity,
        subject: Bytes::copy_of(alloc, entry.subject)?,
        spki: Bytes::copy_of(alloc, key)?,
        extensions: Bytes::copy_of(alloc, entry.extensions)?,
        proof,
    })
}

// The certificate of an entry with its key, index and proof. Only a disk whose bytes the model
// doesn't know can give a key that doesn't belong to the entry; the answer is then out of memory.
fn certificate_of<H: TreeHash>(
    alloc: Global,
    index: u64,
    entry: &[u8],
    key: &[u8],
    proof: Bytes,
) -> Result<Bytes, Memory>
    requires some { 1 ≤ index }
    requires short_entry { IsShort entry.now }
    requires short_key { IsShort key.now }
    requires short_proof { length proof ≤ 200000 }
    ensures { IfOk result (IsCertificateOf H.hash index entry.now key.now proof) }
{
    if !key_matches::<H>(entry, key) {
        return Err(Memory);
    }
    match read_entry(entry) {
        Ok(Entry::Tbs(tbs)) => {
            let parts = parts_with(alloc, index, &tbs, key, proof)?;
            write(alloc, &parts)
        }
        // A key belongs to the entry, so that it is one of type 1.
        Ok(Entry::Null) => unreachable!(),
        Err(_) => unreachable!(),
    }
}

/// The certificate of the entry at an index, with its path in this subtree.
pub fn written<H: TreeHash, D: Disk, T: Disk>(
    alloc: Global,
    log: &mut Log<H, D, T>,
    index: u64,
    start: u64,
    end: u64,
    signatures: &[u8],
) -> Result<Bytes, WriteError>
    requires some { 1 ≤ index }
    requires valid { is_subtree start end ≡ true }
    requires from { start ≤ index }
    requires below { index < end }
    requires within { end ≤ (view_of log.old).size }
    requires signed { AreSignatures signatures.now }
    requires short { length signatures.now < 2 ^ 16 }
    ensures written { IfOk result (λ bytes. IfSome (modelled_by_both log.old)
        (λ s. IsWritten H.hash s index start end signatures.now bytes)) }
    ensures accepted { IfOk result (λ bytes. IfSome (modelled_by_both log.old)
        (λ s. StoresAccept H.hash s index start end signatures.now bytes)) }
    ensures why { IfErr result IsOfDisks }
    ensures stays { LogStays log.old log.new }
    ensures journal { JournalCounts (D.faults (log_disk log.old)) (D.faults (log_disk log.new))
        result }
    ensures tiles { TilesCounts (T.faults (log_tiles_disk log.old))
        (T.faults (log_tiles_disk log.new)) result }
{
    log.law_sound();
    let proof = proof_of(alloc, log, index, start, end, signatures)?;
    let mut entry = Bytes::new(alloc);
    let mut key = Bytes::new(alloc);
    match log.entry(index, &mut entry, &mut key) {
        Ok(()) => {
            let certificate = certificate_of::<H>(
                alloc,
                index,
                entry.as_slice(),
                key.as_slice(),
                proof,
            )?;
            Ok(certificate)
        }
        Err(LogError::Failed) => Err(WriteError::JournalFailed),
        // The log has the entry, so memory was refused.
        Err(_) => Err(WriteError::Memory),
    }
}
