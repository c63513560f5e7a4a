//! An auditor: it judges a certificate, and compares one that is accepted with the entries of a log
//! and with the export of a cosigner.
//!
//! `example_auditor CERT STORE NOW ENTRIES EXPORT`, where the time is in seconds since
//! 1970-01-01T00:00:00Z, and an empty export is none. It prints what the audit finds.
#![tactic(auto)]

ghost use Rattle.std.specs.Prelude.{IfOk, IfSome};
ghost use Rattle.mtc_library.specs.Auditing.{AreSteps, WasJudged, parts, proof_parts};

use anyhow::bail;
use mtc_library::auditing::{
    Audit, Export, Items, JudgedCert, Sha, TreeHash, ValidStore, accept, audit, read_items,
    read_steps,
};
use std::alloc::Global;
use std::{env, fs};

// Reads the entries of a log.
fn items_of(alloc: Global, bytes: &[u8]) -> anyhow::Result<Items<'_, Sha>> {
    match read_items::<Sha>(alloc, bytes) {
        Ok(items) => Ok(items),
        Err(why) => bail!("the entries: {why}"),
    }
}

// Reads the export. Its steps are those of a cosigner.
fn export_of(alloc: Global, bytes: &[u8]) -> anyhow::Result<Option<Export>>
    ensures { IfOk result (λ kept. IfSome kept
        (λ e. AreSteps ⟦<Sha as TreeHash>⟧.hash e.steps)) }
{
    match read_steps::<Sha>(alloc, bytes) {
        Ok(kept) => Ok(kept),
        Err(why) => bail!("the export: {why}"),
    }
}

// What the audit finds, in words.
fn line(alloc: Global, found: Audit) -> anyhow::Result<String> {
    let text = match found {
        Audit::Foreign { .. } => format!(in alloc; "foreign"),
        Audit::Unrecorded => format!(in alloc; "unrecorded"),
        Audit::Stands(index) => format!(in alloc; "stands {index}"),
        Audit::Pair(..) => format!(in alloc; "collision"),
    };
    Ok(text?)
}

// Audits a certificate that was accepted.
fn audited(
    alloc: Global,
    accepted: &JudgedCert,
    store: &ValidStore,
    entries: &[u8],
    export: &[u8],
) -> anyhow::Result<String>
    requires { WasJudged ⟦<Sha as TreeHash>⟧.hash store.now (parts accepted.now.cert)
        (proof_parts accepted.now.proof) accepted.now.accepted }
{
    let items = items_of(alloc, entries)?;
    let kept = export_of(alloc, export)?;
    match audit::<Sha>(
        alloc,
        &accepted.accepted,
        &accepted.cert,
        &accepted.proof,
        store.as_store(),
        &items,
        kept.as_ref(),
    ) {
        Ok(found) => line(alloc, found),
        Err(_) => bail!("no memory"),
    }
}

// The store of a text.
fn store_of(alloc: Global, text: &[u8]) -> anyhow::Result<ValidStore> {
    match ValidStore::read(alloc, text) {
        Ok(store) => Ok(store),
        Err(why) => bail!("the store: {why}"),
    }
}

fn main(rt: HostRuntime) -> anyhow::Result<()> {
    let alloc = rt.alloc();
    let words: Vec<String> = env::args(&rt)?.skip(1).collect(alloc)?;
    let [cert, store, now, entries, export] = words.as_slice() else {
        bail!("example_auditor CERT STORE NOW ENTRIES EXPORT");
    };
    let cert = fs::read(&rt, cert.as_str())?;
    let store = fs::read(&rt, store.as_str())?;
    let entries = fs::read(&rt, entries.as_str())?;
    let export = fs::read(&rt, export.as_str())?;
    let store = store_of(alloc, store.as_slice())?;
    let now = now.as_str().parse::<i64>()?;
    match accept::<Sha>(cert.as_slice(), &store, now) {
        Ok(accepted) => {
            let text = audited(
                alloc,
                &accepted,
                &store,
                entries.as_slice(),
                export.as_slice(),
            )?;
            println!(rt; "{text}")?;
        }
        Err(why) => println!(rt; "refused {why}")?,
    }
    Ok(())
}
