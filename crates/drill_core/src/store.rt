//! What a relying party of a drill holds, and what it accepts.

ghost use Rattle.std.specs.Prelude.{◌≡◌, ◌≤◌, [], ◌∷◌, length, map, pos, IfOk};
ghost use Rattle.policy_core.specs.Judgement.{judgement};
ghost use Rattle.drill_parties.specs.CosignerViews.{cosigner_shown};
ghost use Rattle.drill_core.specs.LightStores.{light_store};
ghost use Rattle.drill_core.specs.Stores.{known_as, one_accepted, store_with};

use crate::requests::NOT_BEFORE;
use drill_parties::{CosignerParty, Cosigners, LOG, id_of};
use mtc_io::{Bytes, Memory};
use policy_core::{
    By, Cosigners as KnownCosigners, Indices, Known, Rule, Rules, Store, ValidStore,
};
use relying_party::judge;
use std::alloc::Global;
use tree_core::TreeHash;

// What is known of a cosigner.
fn known<H: TreeHash>(alloc: Global, party: &CosignerParty<H>) -> Result<Known, Memory>
    ensures { IfOk result (λ known. known ≡ known_as (cosigner_shown party.now)) }
{
    Ok(Known {
        id: party.id(alloc)?,
        key: party.public(),
    })
}

// What is known of several.
fn all_known<H: TreeHash>(alloc: Global, parties: &[CosignerParty<H>]) -> Result<Vec<Known>, Memory>
    ensures { IfOk result
        (λ list. list.items ≡ map (λ party. known_as (cosigner_shown party)) parties.now) }
{
    let mut list = Vec::new(alloc);
    for party in parties {
        list.push(known(alloc, party)?)?;
    }
    Ok(list)
}

// Two of the three have to have signed.
fn two_of_three(alloc: Global) -> Result<Rules, Memory>
    ensures { IfOk result (λ rules. rules
        ≡ record { count = 2; cosigners = 0 ∷ 1 ∷ 2 ∷ [] } ∷ []) }
{
    let indices = Vec::from_slice(alloc, &[0, 1, 2])?;
    let mut rules = Vec::new(alloc);
    rules.push(Rule {
        count: 2,
        cosigners: Indices::from_vec(indices),
    })?;
    Ok(Rules::from_vec(rules))
}

/// The store for the log that knows no cosigner and trusts no subtree.
pub(crate) fn empty_store(alloc: Global) -> Result<Store, Memory>
    ensures { IfOk result (λ store. store ≡ light_store []) }
{
    Store::new(alloc, id_of(alloc, LOG)?)
}

/// The store, which is valid: the stores of a drill are.
pub(crate) fn checked(alloc: Global, store: Store) -> Result<ValidStore, Memory>
    ensures { IfOk result (λ valid. valid ≡ store) }
{
    match store.checked(alloc) {
        Ok(valid) => Ok(valid),
        Err(_) => Err(Memory),
    }
}

/// The store that knows the cosigners, by the rule that two of the three have signed.
pub(crate) fn store_of<H: TreeHash>(
    alloc: Global,
    cosigners: &Cosigners<H>,
) -> Result<ValidStore, Memory>
    requires { length cosigners.now.parties.items ≡ 3 }
    ensures { IfOk result (λ store. store ≡ store_with
        (map (λ party. known_as (cosigner_shown party)) cosigners.now.parties.items)) }
{
    let known = all_known(alloc, cosigners.as_slice())?;
    let rules = two_of_three(alloc)?;
    let mut store = empty_store(alloc)?;
    store.cosigners = KnownCosigners::from_vec(known);
    store.rules = rules;
    checked(alloc, store)
}

/// 1 where the certificate is accepted by all three cosigners, or else 0.
pub(crate) fn one_accepted<H: TreeHash>(cert: &Bytes, store: &ValidStore) -> u64
    ensures value { result ≡ one_accepted (judgement H.hash cert.now store.now (pos 1767225600)) }
    ensures few { result ≤ 1 }
{
    match judge::<H>(cert.as_slice(), store, NOT_BEFORE) {
        Ok(accepted) => match accepted.by {
            By::Cosigners(7) => 1,
            _ => 0,
        },
        Err(_) => 0,
    }
}
