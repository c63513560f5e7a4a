//! Certificates without signatures.

ghost use Rattle.std.specs.Prelude.{◌≡◌, ◌≤◌, ◌++◌, IfOk, OnOk};
ghost use Rattle.landmarks.specs.Landmarks.{active_of, landmarks_of};
ghost use Rattle.issuance_log.specs.Words.{LogStays};
ghost use Rattle.drill_core.specs.LightStores.{AreOfLandmarks, IsDue, IsLit, TrustsActive};
ghost use Rattle.drill_core.specs.LightStores.{cover_with, with_hash};
ghost use Rattle.drill_core.specs.Parties.{log_seen};

use crate::log_party::size_of;
use crate::requests::NOT_BEFORE;
use crate::store::{checked, empty_store};
use crate::tree::hash_of;
use authority_core::{law_entries_say_what_was_asked, light_cert};
use disk_core::MemDisk;
use issuance_log::Log;
use landmarks::{Landmarks, active, of_marks, subtrees};
use mtc_io::Memory;
use policy_core::{Subtrees, Trusted, ValidStore};
use relying_party::judge;
use std::alloc::Global;
use tree_core::{Cover, Span, TreeHash, subtree_ok};

// A subtree of the log with its hash.
fn trusted<H: TreeHash>(log: &mut Log<H, MemDisk, MemDisk>, span: Span) -> Result<Trusted, Memory>
    ensures hash { IfOk result (λ t. t ≡ with_hash H.hash (log_seen log.old).entries span) }
    ensures stays { LogStays log.old log.new }
{
    // The subtrees of a landmark are subtrees of the log.
    if !subtree_ok(span.start, span.end) || size_of(log) < span.end {
        return Err(Memory);
    }
    let hash = hash_of(log, span.start, span.end)?;
    Ok(Trusted {
        start: span.start,
        end: span.end,
        hash,
    })
}

// Appends the subtrees of a cover to others.
fn put_cover<H: TreeHash>(
    log: &mut Log<H, MemDisk, MemDisk>,
    cover: &Cover,
    trust: &mut Vec<Trusted>,
) -> Result<(), Memory>
    ensures put { OnOk result (trust.new.items
        ≡ trust.old.items ++ cover_with H.hash (log_seen log.old).entries cover.now) }
    ensures stays { LogStays log.old log.new }
{
    let first = trusted(log, cover.first)?;
    trust.push(first)?;
    let Some(span) = cover.second else {
        return Ok(());
    };
    let second = trusted(log, span)?;
    trust.push(second)?;
    Ok(())
}

// The subtrees of all active landmarks, from the oldest.
fn active_subtrees<H: TreeHash>(
    alloc: Global,
    log: &mut Log<H, MemDisk, MemDisk>,
    landmarks: &Landmarks,
) -> Result<Subtrees, Memory>
    ensures active { IfOk result (AreOfLandmarks H.hash (log_seen log.old).entries landmarks.now
        (active_of landmarks.now).start (active_of landmarks.now).end) }
    ensures stays { LogStays log.old log.new }
{
    let mut trust = Vec::new(alloc);
    let numbers = active(landmarks);
    for number in numbers.start..numbers.end {
        put_cover(log, &subtrees(landmarks, number), &mut trust)?;
    }
    Ok(Subtrees::from_vec(trust))
}

// The landmarks of the log.
fn landmarks_of<H: TreeHash>(
    alloc: Global,
    log: &Log<H, MemDisk, MemDisk>,
) -> Result<Landmarks, Memory>
    ensures { IfOk result (λ l. l
        ≡ landmarks_of (log_seen log.now).marks (log_seen log.now).settings.max_active) }
{
    log.law_sound();
    of_marks(alloc, log.marks(), log.settings().max_active)
}

// The store that trusts the active subtrees of the log, and no cosigner.
fn landmark_store<H: TreeHash>(
    alloc: Global,
    log: &mut Log<H, MemDisk, MemDisk>,
) -> Result<ValidStore, Memory>
    ensures trusts { IfOk result (TrustsActive H.hash (log_seen log.old)) }
    ensures stays { LogStays log.old log.new }
{
    let landmarks = landmarks_of(alloc, log)?;
    let subtrees = active_subtrees(alloc, log, &landmarks)?;
    let mut store = empty_store(alloc)?;
    store.subtrees = subtrees;
    checked(alloc, store)
}

// 1 where the certificate of the newest entry without signatures is accepted by this store, or else
// 0.
fn lit_by<H: TreeHash>(
    alloc: Global,
    log: &mut Log<H, MemDisk, MemDisk>,
    store: &ValidStore,
) -> Result<u64, Memory>
    requires { TrustsActive H.hash (log_seen log.old) store.now }
    ensures few { IfOk result (λ count. count ≤ 1) }
    ensures accepted { IfOk result (λ count. IsDue H.hash (log_seen log.old) → count ≡ 1) }
    ensures only { IfOk result (λ count. count ≡ 1 → IsLit H.hash (log_seen log.old)) }
    ensures stays { LogStays log.old log.new }
{
    law_entries_say_what_was_asked();
    let newest = size_of(log) - 1;
    let Ok(cert) = light_cert(alloc, log, newest) else {
        return Err(Memory);
    };
    match judge::<H>(cert.as_slice(), store, NOT_BEFORE) {
        Ok(_) => Ok(1),
        Err(_) => Ok(0),
    }
}

/// 1 where the certificate of the newest entry without signatures is accepted by the active
/// subtrees alone, or else 0. It is where that entry is one of the drill's log.
pub(crate) fn one_light<H: TreeHash>(
    alloc: Global,
    log: &mut Log<H, MemDisk, MemDisk>,
) -> Result<u64, Memory>
    ensures few { IfOk result (λ count. count ≤ 1) }
    ensures accepted { IfOk result (λ count. IsDue H.hash (log_seen log.old) → count ≡ 1) }
    ensures only { IfOk result (λ count. count ≡ 1 → IsLit H.hash (log_seen log.old)) }
    ensures stays { LogStays log.old log.new }
{
    let store = landmark_store(alloc, log)?;
    lit_by(alloc, log, &store)
}
