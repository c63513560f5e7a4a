//! The audits of a drill, done again.

use crate::drill_summary::{exported, open_log, store_of};
use cert_fields::parse;
use cosigner_core::read_export;
use disk_core::MemDisk;
use drill_core::DrillOutput;
use entry_list::read_items;
use mtc_io::{Bytes, Memory};
use mtc_proof::read_proof;
use policy_core::ValidStore;
use relying_party::judge;
use std::alloc::Global;
use tls_wire::put_vec16;
use tree_core::Sha;
use world_core::{Audit, audit};

const MAX_TEXT: usize = 65_535;

// Appends bytes with their length of two bytes before them.
fn put(out: &mut Bytes, text: &[u8]) -> Result<(), Memory> {
    if text.len() > MAX_TEXT {
        return Err(Memory);
    }
    put_vec16(out, text)
}

// The file of all items of the log on a device.
fn listed(alloc: Global, disk: &MemDisk) -> Result<Bytes, Memory> {
    let mut log = open_log(alloc, disk)?;
    let mut out = Bytes::new(alloc);
    let mut entry = Bytes::new(alloc);
    let mut key = Bytes::new(alloc);
    for index in 0..log.size() {
        if log.entry(index, &mut entry, &mut key).is_err() {
            return Err(Memory);
        }
        put(&mut out, entry.as_slice())?;
        put(&mut out, key.as_slice())?;
    }
    Ok(out)
}

// The audit of what the store accepts; none where it refuses, or a file doesn't read.
fn audited(
    alloc: Global,
    certificate: &[u8],
    store: &ValidStore,
    list: &[u8],
    export: &[u8],
) -> Option<Result<Audit, Memory>> {
    let accepted = judge::<Sha>(certificate, store, 1_767_225_600).ok()?;
    let cert = parse(certificate).ok()?;
    let proof = read_proof(cert.proof).ok()?;
    let items = read_items::<Sha>(alloc, list).ok()?;
    let kept = read_export::<Sha>(alloc, export).ok()?;
    Some(audit::<Sha>(
        alloc,
        &accepted,
        &cert,
        &proof,
        store.as_store(),
        &items,
        kept.as_ref(),
    ))
}

// Whether the audit finds the entry.
fn stands(
    alloc: Global,
    certificate: &[u8],
    store: &ValidStore,
    list: &[u8],
    export: &[u8],
) -> bool {
    matches!(
        audited(alloc, certificate, store, list, export),
        Some(Ok(Audit::Stands(_)))
    )
}

/// How many audits of the certificates with the items of the log and the export of each cosigner
/// find the entry.
pub fn found_entries(alloc: Global, drill: &DrillOutput) -> Result<u64, Memory> {
    let store = store_of(alloc, drill)?;
    let list = listed(alloc, &drill.log)?;
    let mut count = 0u64;
    for disk in &drill.cosigners {
        let export = exported(alloc, disk)?;
        for certificate in drill.certs.as_slice() {
            if stands(
                alloc,
                certificate.as_slice(),
                &store,
                list.as_slice(),
                export.as_slice(),
            ) {
                count = count.saturating_add(1);
            }
        }
    }
    Ok(count)
}
