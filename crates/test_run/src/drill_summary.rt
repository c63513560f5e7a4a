//! What a drill has answered, counted again.

use cosigner_core::{Cosigner, Export, Step, read_export};
use disk_core::MemDisk;
use drill_core::DrillOutput;
use frame_pool::Pool;
use issuance_log::Log;
use mtc_io::{Bytes, MemSink, Memory};
use policy_core::{By, Cosigners, Indices, Known, Rule, Rules, Store, ValidStore};
use relying_party::judge;
use std::alloc::Global;
use tls_wire::AnchorId;
use tree_core::Sha;

/// The log on a device, with an empty one for its tiles, of which it has stored none.
pub(crate) fn open_log(
    alloc: Global,
    disk: &MemDisk,
) -> Result<Log<Sha, MemDisk, MemDisk>, Memory> {
    let tiles = MemDisk::new(alloc, Vec::new(alloc));
    match Log::open(alloc, disk.open_copy()?, tiles, Pool::new(alloc, 1)?) {
        Ok(log) => Ok(log),
        Err(_) => Err(Memory),
    }
}

/// The export of the cosigner on a device.
pub(crate) fn exported(alloc: Global, disk: &MemDisk) -> Result<Bytes, Memory> {
    let Ok(mut cosigner) = Cosigner::<Sha, MemDisk>::open(alloc, disk.open_copy()?) else {
        return Err(Memory);
    };
    let mut out = MemSink::new(alloc, 1_000_000, Vec::new(alloc));
    if cosigner.export(&mut out).is_err() {
        return Err(Memory);
    }
    Bytes::copy_of(alloc, out.taken())
}

// What others may know of the cosigner on a device.
fn export_of(alloc: Global, disk: &MemDisk) -> Result<Export, Memory> {
    let bytes = exported(alloc, disk)?;
    match read_export::<Sha>(alloc, bytes.as_slice()) {
        Ok(Some(export)) => Ok(export),
        _ => Err(Memory),
    }
}

fn signs(export: &Export) -> u64 {
    let steps = export.steps.as_slice();
    steps
        .iter()
        .filter(|step| matches!(step, Step::Sign { .. }))
        .count() as u64
}

fn known(alloc: Global, export: &Export) -> Result<Known, Memory> {
    match AnchorId::from_bytes(alloc, export.cosigner.as_bytes()) {
        Ok(id) => Ok(Known {
            id,
            key: export.public,
        }),
        Err(_) => Err(Memory),
    }
}

// What others may know of each cosigner of a drill.
fn exports_of(alloc: Global, drill: &DrillOutput) -> Result<Vec<Export>, Memory> {
    let mut exports = Vec::new(alloc);
    for disk in &drill.cosigners {
        exports.push(export_of(alloc, disk)?)?;
    }
    Ok(exports)
}

// The store with the rule two of three.
fn store_with(alloc: Global, exports: &[Export]) -> Result<ValidStore, Memory> {
    let mut cosigners = Vec::new(alloc);
    let mut indices = Vec::new(alloc);
    let mut rules = Vec::new(alloc);
    for export in exports {
        cosigners.push(known(alloc, export)?)?;
    }
    for index in [0, 1, 2] {
        indices.push(index)?;
    }
    rules.push(Rule {
        count: 2,
        cosigners: Indices::from_vec(indices),
    })?;
    let Ok(log) = AnchorId::from_text(alloc, "32473.1") else {
        return Err(Memory);
    };
    if cosigners.len() > 3 {
        return Err(Memory);
    }
    let mut store = Store::new(alloc, log)?;
    store.cosigners = Cosigners::from_vec(cosigners);
    store.rules = Rules::from_vec(rules);
    store.checked(alloc).map_err(|_| Memory)
}

// Whether a certificate is accepted by the rule alone, by all three cosigners.
fn is_verified(bytes: &[u8], store: &ValidStore) -> bool {
    match judge::<Sha>(bytes, store, 1_767_225_600) {
        Ok(accepted) => accepted.by == By::Cosigners(7),
        Err(_) => false,
    }
}

/// The store of a relying party who knows the cosigners by their exports.
pub(crate) fn store_of(alloc: Global, drill: &DrillOutput) -> Result<ValidStore, Memory> {
    let exports = exports_of(alloc, drill)?;
    store_with(alloc, exports.as_slice())
}

/// The entries, the landmarks, the Sign records, and the certificates that a relying party accepts
/// who knows the cosigners by their exports.
pub fn recounted(alloc: Global, drill: &DrillOutput) -> Result<(u64, u64, u64, u64), Memory> {
    let log = open_log(alloc, &drill.log)?;
    let exports = exports_of(alloc, drill)?;
    let store = store_with(alloc, exports.as_slice())?;
    let mut verified = 0u64;
    for bytes in drill.certs.as_slice() {
        if is_verified(bytes.as_slice(), &store) {
            verified = verified.saturating_add(1);
        }
    }
    let mut signatures = 0u64;
    for export in &exports {
        signatures = signatures.saturating_add(signs(export));
    }
    let landmarks = log.marks().len() as u64;
    Ok((log.size(), landmarks, signatures, verified))
}
