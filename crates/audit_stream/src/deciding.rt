//! The answer of an audit by the summary of its list.

ghost use Rattle.std.specs.Prelude.{◌≡◌, IfOk, option_map};
ghost use Rattle.cert_fields.specs.Views.{parts};
ghost use Rattle.entry_list.specs.Items.{ItemLists};
ghost use Rattle.mtc_proof.specs.Proofs.{ProofParts};
ghost use Rattle.world_core.specs.Audit.{is_recorded_by};
ghost use Rattle.audit_stream.specs.Summaries.{answer_by, foreign_by, own_by, summary_parts};

use crate::asking::Summary;
use cert_fields::Cert;
use cosigner_core::Export;
use log_entry::entry_of;
use mtc_io::Memory;
use policy_core::{Accepted, By, Store};
use std::alloc::Global;
use tree_core::TreeHash;
use world_core::{Audit, WantedHash, recorded_at, wanted_hash};

// The hash that is wanted and the one that is there, where the list is too short or they differ.
fn foreign_by(summary: &Summary<'_>, wanted: Option<WantedHash>) -> Option<([u8; 32], [u8; 32])>
    ensures { result ≡ foreign_by (summary_parts summary.now) wanted }
{
    let wanted = wanted?;
    if summary.count < wanted.end || summary.part_hash != wanted.hash {
        let hash = wanted.hash;
        let found = summary.part_hash;
        return Some((hash, found));
    }
    None
}

// Whether the export supports the acceptance. A landmark wants no export.
fn is_supported(accepted: &Accepted, store: &Store, kept: Option<&Export>) -> bool
    ensures { result ≡ is_recorded_by store.now accepted.now accepted.now.by
        (option_map (λ e. e.now) kept.entry) }
{
    match accepted.by {
        By::Landmark => true,
        By::Cosigners(set) => match kept {
            Some(kept) => recorded_at(store, accepted, set, kept).is_some(),
            None => false,
        },
    }
}

// Whether the item is the certificate's entry, in the form that the store gives it, with its key.
fn is_own<H: TreeHash>(
    alloc: Global,
    cert: &Cert,
    store: &Store,
    summary: &Summary<'_>,
) -> Result<bool, Memory>
    ensures { IfOk result (λ own. own ≡ own_by H.hash store.now (summary_parts summary.now)
        (parts cert.now)) }
{
    let entry = entry_of::<H>(alloc, cert, store.form_at(cert.serial))?;
    Ok(summary.entry == entry.as_slice() && summary.spki == cert.spki)
}

/// The answer of [`world_core::audit`] by the summary of its list: for the part that
/// [`wanted_hash`] gives, and for the accepted index. None comes exactly if the answer is two
/// strings, which have to be looked for in the list itself:
/// [`law_audits_are_of_summaries`](crate::laws::law_audits_are_of_summaries) says so.
pub fn decided<H: TreeHash>(
    alloc: Global,
    accepted: &Accepted,
    cert: &Cert,
    store: &Store,
    kept: Option<&Export>,
    summary: &Summary<'_>,
) -> Result<Option<Audit>, Memory>
    ensures { IfOk result (λ answer. (proof : ProofParts) (items : ItemLists)
        → answer ≡ answer_by H.hash (record {
          accepted = accepted.now;
          cert = parts cert.now;
          proof = proof;
          store = store.now;
          items = items;
          kept = option_map (λ e. e.now) kept.entry;
        }) (summary_parts summary.now)) }
{
    if let Some(hashes) = foreign_by(summary, wanted_hash::<H>(accepted, kept)) {
        let wanted = hashes.0;
        let found = hashes.1;
        return Ok(Some(Audit::Foreign { wanted, found }));
    }
    if !is_supported(accepted, store, kept) {
        return Ok(Some(Audit::Unrecorded));
    }
    if is_own::<H>(alloc, cert, store, summary)? {
        return Ok(Some(Audit::Stands(accepted.index)));
    }
    Ok(None)
}
