//! A relying party: it accepts a certificate by a trust store at a time, where it is one of a host,
//! and takes its key.
//!
//! `example_judge CERT STORE NOW HOST`, where the time is in seconds since 1970-01-01T00:00:00Z.
//! It prints the index of the certificate's entry in the log and the key, in hexadecimal; or why
//! the certificate is refused.
#![tactic(auto)]

ghost use Rattle.std.specs.Prelude.{◌≡◌, true, Ok, IfOk};
ghost use Rattle.mtc_library.specs.Judging.{is_for, judgement, parts};

use anyhow::bail;
use mtc_library::judging::{JudgedCert, Sha, TreeHash, ValidStore, accept, is_for};
use std::{env, fs};

// The certificate, if the store accepts it at this time and it is one of the host.
fn trusted<'a>(
    bytes: &'a [u8],
    store: &ValidStore,
    now: i64,
    host: &str,
) -> anyhow::Result<JudgedCert<'a>>
    ensures accepted { IfOk result (λ peer.
        judgement ⟦<Sha as TreeHash>⟧.hash bytes.now store.now now ≡ Ok peer.accepted) }
    ensures named { IfOk result (λ peer. is_for host.now (parts peer.cert) ≡ true) }
{
    let peer = accept::<Sha>(bytes, store, now)?;
    if !is_for(&peer.cert, host.as_bytes()) {
        bail!("the certificate is none of this host");
    }
    Ok(peer)
}

fn main(rt: HostRuntime) -> anyhow::Result<()> {
    let words: Vec<String> = env::args(&rt)?.skip(1).collect(rt.alloc())?;
    let [cert, store, now, host] = words.as_slice() else {
        bail!("example_judge CERT STORE NOW HOST");
    };
    let cert = fs::read(&rt, cert.as_str())?;
    let store = fs::read(&rt, store.as_str())?;
    let store = ValidStore::read(rt.alloc(), store.as_slice())?;
    let now = now.as_str().parse::<i64>()?;
    match trusted(cert.as_slice(), &store, now, host.as_str()) {
        Ok(peer) => {
            let key = hex::encode(rt.alloc(), peer.cert.spki)?;
            println!(rt; "accepted {}\nkey {key}", peer.accepted.index)?;
        }
        Err(why) => println!(rt; "refused {why}")?,
    }
    Ok(())
}
