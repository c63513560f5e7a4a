//! The audits of a round.

ghost use Rattle.std.specs.Prelude.{◌≡◌, ◌↔◌, ◌≤◌, length, pos, Ok, Some, IfOk};
ghost use Rattle.byte_formats.specs.Types.{Text};
ghost use Rattle.cert_fields.specs.Certificate.{parts_of};
ghost use Rattle.cert_fields.specs.Views.{parts};
ghost use Rattle.entry_list.specs.Items.{ItemLists};
ghost use Rattle.entry_list.specs.Reading.{items_in};
ghost use Rattle.mtc_proof.specs.Views.{proof_parts};
ghost use Rattle.cosigner_core.specs.ExportReading.{export_in};
ghost use Rattle.cosigner_steps.specs.Steps.{AreSteps};
ghost use Rattle.policy_core.specs.Judgement.{judgement};
ghost use Rattle.world_core.specs.Audit.{WasJudged};
ghost use Rattle.drill_core.specs.Audits.{AllByExport, StandsByExport};
ghost use Rattle.drill_parties.specs.CosignerViews.{IsStill};
ghost use Rattle.drill_parties.specs.Cosigners.{Paired};
ghost use Rattle.drill_core.specs.AuditViews.{AllStand};
ghost use Rattle.drill_core.specs.LogParties.{IsSameLog, log_shown};

use crate::judged_cert::JudgedCert;
use crate::log_party::LogParty;
use crate::requests::NOT_BEFORE;
use cert_fields::parse;
use cosigner_core::{Export, read_export};
use drill_parties::Cosigners;
use entry_list::{Items, read_items};
use mtc_io::{Bytes, Memory};
use mtc_proof::read_proof;
use policy_core::ValidStore;
use relying_party::judge;
use std::alloc::Global;
use tree_core::TreeHash;
use world_core::{Audit, audit};

// Judges a certificate of a drill, which is accepted.
fn judged_in<'a, H: TreeHash>(bytes: &'a [u8], store: &ValidStore) -> Result<JudgedCert<'a>, Memory>
    ensures accepted { IfOk result (λ j.
        judgement H.hash bytes.now store.now (pos 1767225600) ≡ Ok j.accepted) }
    ensures read { IfOk result (λ j. parts_of bytes.now ≡ Ok (parts j.cert)) }
    ensures judged { IfOk result (λ j. WasJudged H.hash store.now (parts j.cert)
        (proof_parts j.proof) j.accepted) }
{
    let Ok(accepted) = judge::<H>(bytes, store, NOT_BEFORE) else {
        return Err(Memory);
    };
    let Ok(cert) = parse(bytes) else {
        return Err(Memory);
    };
    let Ok(proof) = read_proof(cert.proof) else {
        return Err(Memory);
    };
    Ok(JudgedCert {
        accepted,
        cert,
        proof,
    })
}

/// The export of a cosigner of a drill, which reads.
pub(crate) fn kept_in<H: TreeHash>(alloc: Global, bytes: &[u8]) -> Result<Export, Memory>
    ensures exact { IfOk result (λ kept. export_in H.hash bytes.now ≡ Ok (Some kept)) }
    ensures allowed { IfOk result (λ kept. AreSteps H.hash kept.steps) }
{
    match read_export::<H>(alloc, bytes) {
        Ok(Some(kept)) => Ok(kept),
        _ => Err(Memory),
    }
}

// 1 where the audit of a certificate with these items and this export of a cosigner answers that it
// stands, and else 0.
fn stands<H: TreeHash>(
    alloc: Global,
    judged: &JudgedCert<'_>,
    store: &ValidStore,
    items: &Items<'_, H>,
    export: &Bytes,
) -> Result<u64, Memory>
    requires { WasJudged H.hash store.now (parts judged.now.cert) (proof_parts judged.now.proof)
        judged.now.accepted }
    ensures few { IfOk result (λ count. count ≤ 1) }
    ensures stands { IfOk result (λ count. (cert : Text)
        → judgement H.hash cert store.now (pos 1767225600) ≡ Ok judged.now.accepted
        → parts_of cert ≡ Ok (parts judged.now.cert)
        → StandsByExport H.hash store.now cert items.now export.now ↔ (count ≡ 1)) }
{
    let kept = kept_in::<H>(alloc, export.as_slice())?;
    let answer = audit::<H>(
        alloc,
        &judged.accepted,
        &judged.cert,
        &judged.proof,
        store.as_store(),
        items,
        Some(&kept),
    )?;
    match answer {
        Audit::Stands(_) => Ok(1),
        _ => Ok(0),
    }
}

// How many audits of a certificate stand, each with another export.
fn count_standing<H: TreeHash>(
    alloc: Global,
    judged: &JudgedCert<'_>,
    store: &ValidStore,
    items: &Items<'_, H>,
    exports: &[Bytes],
) -> Result<u64, Memory>
    requires { WasJudged H.hash store.now (parts judged.now.cert) (proof_parts judged.now.proof)
        judged.now.accepted }
    ensures few { IfOk result (λ count. count ≤ length exports.now) }
    ensures all { IfOk result (λ count. (cert : Text)
        → judgement H.hash cert store.now (pos 1767225600) ≡ Ok judged.now.accepted
        → parts_of cert ≡ Ok (parts judged.now.cert)
        → AllByExport H.hash store.now cert items.now exports.now
        ↔ (count ≡ length exports.now)) }
{
    let mut count = 0u64;
    for export in exports {
        let one = stands(alloc, judged, store, items, export)?;
        count += one;
    }
    Ok(count)
}

// How many audits of a certificate stand, with a file of items and each of several exports.
fn standing<H: TreeHash>(
    alloc: Global,
    cert: &Bytes,
    store: &ValidStore,
    listed: &Bytes,
    exports: &[Bytes],
) -> Result<u64, Memory>
    ensures few { IfOk result (λ count. count ≤ length exports.now) }
    ensures all { IfOk result (λ count. (items : ItemLists)
        → items_in H.hash listed.now ≡ Ok items
        → AllByExport H.hash store.now cert.now items exports.now
        ↔ (count ≡ length exports.now)) }
{
    let judged = judged_in::<H>(cert.as_slice(), store)?;
    let Ok(items) = read_items::<H>(alloc, listed.as_slice()) else {
        return Err(Memory);
    };
    count_standing(alloc, &judged, store, &items, exports)
}

/// Audits a certificate with the log's items and the export of each cosigner: how many of the
/// audits stand. They are as many as the cosigners exactly if all do.
pub(crate) fn audited<H: TreeHash>(
    alloc: Global,
    log: &mut LogParty<H>,
    cosigners: &mut Cosigners<H>,
    store: &ValidStore,
    cert: &Bytes,
) -> Result<u64, Memory>
    ensures log { IsSameLog log.old log.new }
    ensures still { IfOk result (λ count.
        Paired IsStill cosigners.old.parties.items cosigners.new.parties.items) }
    ensures few { IfOk result (λ count. count ≤ length cosigners.old.parties.items) }
    ensures count { IfOk result (λ count.
        AllStand H.hash store.now cert.now (log_shown log.old) cosigners.old.parties.items
        ↔ (count ≡ length cosigners.old.parties.items)) }
{
    let listed = log.listed(alloc)?;
    let exports = cosigners.exports(alloc)?;
    standing::<H>(alloc, cert, store, &listed, exports.as_slice())
}
