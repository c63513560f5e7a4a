//! Audits of what a relying party has accepted.

ghost use Rattle.std.specs.Prelude.{IfOk, IfSome, option_map};
ghost use Rattle.cert_fields.specs.Views.{parts};
ghost use Rattle.mtc_proof.specs.Views.{proof_parts};
ghost use Rattle.cosigner_steps.specs.Steps.{AreSteps};
ghost use Rattle.world_core.specs.Audit.{IsAudit, WasJudged};

use crate::answer::Audit;
use crate::by_cosigners::by_record;
use crate::deciding::decide;
use crate::wanted::{foreign, wanted_hash};
use cert_fields::Cert;
use cosigner_core::Export;
use entry_list::Items;
use mtc_io::Memory;
use mtc_proof::Proof;
use policy_core::{Accepted, By, Store};
use std::alloc::Global;
use tree_core::TreeHash;

/// Audits the acceptance of a certificate against a list of entries, and against the export of a
/// cosigner, if there is one. The answer is the first of these that applies.
///
/// `Foreign` where a hash is wanted and the list is too short or has another: by a landmark the
/// accepted hash of the interval, by cosigners the tree hash of all that the cosigner of the export
/// holds at last, if there is an export. `Unrecorded` where cosigners decided and there is no
/// export, or it is of another log or of a cosigner that doesn't count, or none of its Signs is of
/// the interval with the accepted hash. `Stands` where the list's item at the index is the
/// certificate's entry and key. `Pair` in all other cases.
pub fn audit<H: TreeHash>(
    alloc: Global,
    accepted: &Accepted,
    cert: &Cert,
    proof: &Proof,
    store: &Store,
    items: &Items<'_, H>,
    kept: Option<&Export>,
) -> Result<Audit, Memory>
    requires judged { WasJudged H.hash store.now (parts cert.now) (proof_parts proof.now)
        accepted.now }
    requires allowed { IfSome kept (λ e. AreSteps H.hash e.now.steps) }
    ensures { IfOk result (IsAudit H.hash (record {
      accepted = accepted.now;
      cert = parts cert.now;
      proof = proof_parts proof.now;
      store = store.now;
      items = items.now;
      kept = option_map (λ e. e.now) kept.entry;
    })) }
{
    let wanted = wanted_hash::<H>(accepted, kept);
    if let Some(answer) = foreign::<H>(&items.entries(), wanted) {
        return Ok(answer);
    }
    match accepted.by {
        By::Landmark => decide(alloc, accepted, cert, proof, store, items),
        By::Cosigners(set) => match kept {
            Some(kept) => by_record(alloc, set, accepted, cert, proof, store, items, kept),
            None => Ok(Audit::Unrecorded),
        },
    }
}
