//! Whether a list has the entry of a certificate, where it has the accepted hash.

ghost use Rattle.std.specs.Prelude.{◌≡◌, ◌<◌, length, Option, Ok, IfOk};
ghost use Rattle.cert_fields.specs.Grammar.{IsCertificate};
ghost use Rattle.cert_fields.specs.Views.{parts};
ghost use Rattle.tree_core.specs.Evaluation.{evaluation};
ghost use Rattle.tree_core.specs.Tree.{leaf_hash};
ghost use Rattle.policy_core.specs.Judgement.{entry_by};
ghost use Rattle.mtc_proof.specs.Proofs.{ProofParts};
ghost use Rattle.mtc_proof.specs.Views.{proof_parts};
ghost use Rattle.cosigner_core.specs.declared.lists.Export.{Export};
ghost use Rattle.world_core.specs.Audit.{HasInterval, Decides, listed_entry};

use crate::answer::Audit;
use cert_fields::Cert;
use collide::{Finding, in_list};
use entry_list::Items;
use log_entry::entry_of;
use mtc_io::{Bytes, Memory};
use mtc_proof::Proof;
use policy_core::{Accepted, Store};
use std::alloc::Global;
use tree_core::TreeHash;

// The answer where the list has the certificate's entry: it has its key too, or two keys have one
// hash.
fn by_key<H: TreeHash>(
    alloc: Global,
    accepted: &Accepted,
    cert: &Cert,
    store: &Store,
    items: &Items<'_, H>,
) -> Result<Audit, Memory>
    requires certificate { IsCertificate (parts cert.now) }
    requires inside { accepted.now.index < length items.now.entries }
    requires entry { listed_entry items.now accepted.now.index
        ≡ entry_by H.hash store.now (parts cert.now) }
    ensures { IfOk result (λ answer. (p : ProofParts) (kept : Option Export)
        → Decides H.hash (record {
          accepted = accepted.now;
          cert = parts cert.now;
          proof = p;
          store = store.now;
          items = items.now;
          kept = kept;
        }) answer) }
{
    let item = items.item(accepted.index as usize);
    if item.spki == cert.spki {
        return Ok(Audit::Stands(accepted.index));
    }
    let own = Bytes::copy_of(alloc, item.spki)?;
    let other = Bytes::copy_of(alloc, cert.spki)?;
    Ok(Audit::Pair(own, other))
}

/// The answer where the list has the accepted hash in the accepted interval.
pub(crate) fn decide<H: TreeHash>(
    alloc: Global,
    accepted: &Accepted,
    cert: &Cert,
    proof: &Proof,
    store: &Store,
    items: &Items<'_, H>,
) -> Result<Audit, Memory>
    requires certificate { IsCertificate (parts cert.now) }
    requires path { evaluation H.hash
        (leaf_hash H.hash (entry_by H.hash store.now (parts cert.now))) accepted.now.index
        accepted.now.start accepted.now.end (proof_parts proof.now).path ≡ Ok accepted.now.hash }
    requires interval { HasInterval H.hash items.now accepted.now }
    ensures { IfOk result (λ answer. (kept : Option Export)
        → Decides H.hash (record {
          accepted = accepted.now;
          cert = parts cert.now;
          proof = proof_parts proof.now;
          store = store.now;
          items = items.now;
          kept = kept;
        }) answer) }
{
    let entry = entry_of::<H>(alloc, cert, store.form_at(cert.serial))?;
    match in_list::<H, _>(
        alloc,
        &items.entries(),
        accepted.start,
        accepted.end,
        accepted.index,
        entry.as_slice(),
        proof.path,
    )? {
        Finding::Same => by_key(alloc, accepted, cert, store, items),
        Finding::Pair(one, other) => Ok(Audit::Pair(one, other)),
    }
}
