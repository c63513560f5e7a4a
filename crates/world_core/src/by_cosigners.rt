//! Audits of what was accepted by cosigners.

ghost use Rattle.std.specs.Prelude.{◌≡◌, ◌<◌, length, Ok, Some, IfOk, slice_index_or, true};
ghost use Rattle.cert_fields.specs.Grammar.{IsCertificate};
ghost use Rattle.cert_fields.specs.Views.{parts};
ghost use Rattle.tree_core.specs.Evaluation.{evaluation};
ghost use Rattle.tree_core.specs.Tree.{leaf_hash};
ghost use Rattle.policy_core.specs.Judgement.{entry_by};
ghost use Rattle.mtc_proof.specs.Views.{proof_parts};
ghost use Rattle.cosigner_core.specs.declared.step.Step.{Step};
ghost use Rattle.cosigner_steps.specs.Steps.{AreSteps, HasPrefix, held_by};
ghost use Rattle.world_core.specs.Audit.{Decides, DecidesRecorded, has_own, is_sign_of};

use crate::answer::Audit;
use crate::deciding::decide;
use crate::signed::find_signed;
use crate::supporting::recorded_at;
use cert_fields::Cert;
use collide::Finding;
use cosigner_core::Export;
use entry_list::Items;
use log_entry::entry_of;
use mtc_io::Memory;
use mtc_proof::Proof;
use policy_core::{Accepted, Store};
use std::alloc::Global;
use tree_core::TreeHash;

// Whether the list has the certificate's entry at the accepted index, with its key.
fn is_own<H: TreeHash>(
    alloc: Global,
    accepted: &Accepted,
    cert: &Cert,
    store: &Store,
    items: &Items<'_, H>,
) -> Result<bool, Memory>
    requires { accepted.now.index < length items.now.entries }
    ensures { IfOk result
        (λ own. own ≡ has_own H.hash store.now items.now accepted.now (parts cert.now)) }
{
    let entry = entry_of::<H>(alloc, cert, store.form_at(cert.serial))?;
    let item = items.item(accepted.index as usize);
    Ok(item.entry == entry.as_slice() && item.spki == cert.spki)
}

// The answer where the Sign at an index is of what was accepted.
fn by_sign<H: TreeHash>(
    alloc: Global,
    accepted: &Accepted,
    cert: &Cert,
    proof: &Proof,
    store: &Store,
    items: &Items<'_, H>,
    kept: &Export,
    place: usize,
) -> Result<Audit, Memory>
    requires certificate { IsCertificate (parts cert.now) }
    requires path { evaluation H.hash
        (leaf_hash H.hash (entry_by H.hash store.now (parts cert.now))) accepted.now.index
        accepted.now.start accepted.now.end (proof_parts proof.now).path ≡ Ok accepted.now.hash }
    requires allowed { AreSteps H.hash kept.now.steps }
    requires within { place < length kept.now.steps }
    requires sign { (step : Step)
        → is_sign_of accepted.now (slice_index_or kept.now.steps place step) ≡ true }
    requires whole { HasPrefix H.hash items.now.entries (held_by H.hash kept.now.steps) }
    ensures { IfOk result (Decides H.hash (record {
      accepted = accepted.now;
      cert = parts cert.now;
      proof = proof_parts proof.now;
      store = store.now;
      items = items.now;
      kept = Some kept.now;
    })) }
{
    if is_own(alloc, accepted, cert, store, items)? {
        return Ok(Audit::Stands(accepted.index));
    }
    let steps = kept.steps.as_slice();
    match find_signed::<H>(alloc, &items.entries(), steps, place, &steps[place])? {
        Finding::Same => decide(alloc, accepted, cert, proof, store, items),
        Finding::Pair(one, other) => Ok(Audit::Pair(one, other)),
    }
}

/// The answer where cosigners decided, and this is the export of one.
pub(crate) fn by_record<H: TreeHash>(
    alloc: Global,
    set: u64,
    accepted: &Accepted,
    cert: &Cert,
    proof: &Proof,
    store: &Store,
    items: &Items<'_, H>,
    kept: &Export,
) -> Result<Audit, Memory>
    requires certificate { IsCertificate (parts cert.now) }
    requires path { evaluation H.hash
        (leaf_hash H.hash (entry_by H.hash store.now (parts cert.now))) accepted.now.index
        accepted.now.start accepted.now.end (proof_parts proof.now).path ≡ Ok accepted.now.hash }
    requires allowed { AreSteps H.hash kept.now.steps }
    requires whole { HasPrefix H.hash items.now.entries (held_by H.hash kept.now.steps) }
    ensures { IfOk result (DecidesRecorded H.hash set kept.now (record {
      accepted = accepted.now;
      cert = parts cert.now;
      proof = proof_parts proof.now;
      store = store.now;
      items = items.now;
      kept = Some kept.now;
    })) }
{
    match recorded_at(store, accepted, set, kept) {
        Some(place) => by_sign(alloc, accepted, cert, proof, store, items, kept, place),
        None => Ok(Audit::Unrecorded),
    }
}
