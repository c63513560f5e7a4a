//! A cosigner over one journal: it holds the root of a larger log, and signs a subtree of it.
//!
//! `example_cosigner JOURNAL LARGER SUBTREE [SECRET]`: with the secret, a file of 48 bytes, a new
//! journal is begun. A journal that isn't found is never begun again by itself: one secret belongs
//! to one journal. The requests are those that `mtc consist` and `mtc subtree` write. It prints the
//! size of the log that it holds, and the cosignature in hexadecimal.
#![tactic(auto)]

ghost use Rattle.std.specs.Prelude.{◌≡◌, IfOk};
ghost use Rattle.mtc_library.specs.Cosigning.{cosigner_state, signature_by, signature_text};

use anyhow::bail;
use mtc_library::cosigning::{
    AnchorId, Bytes, Cosigner, CosignerSettings, Disk, FileDisk, LmsType, Opened, OtsType,
    ReservedSignature, Secret, Sha, SigBuf, SubtreeRequest, begin_cosigner, new_journal,
    open_journal, read_advance, read_subtree,
};
use std::alloc::Global;
use std::env;
use std::fs::{self, File};
use std::rt::Files;

// No signature is longer.
const LONGEST: u16 = 17_748;

fn id_of(alloc: Global, text: &str) -> anyhow::Result<AnchorId> {
    match AnchorId::from_text(alloc, text) {
        Ok(id) => Ok(id),
        Err(why) => bail!("the id {text}: {why}"),
    }
}

// The cosigner of a new journal, which begins with the secret.
fn begun(
    alloc: Global,
    device: FileDisk<Opened>,
    secret: &[u8],
) -> anyhow::Result<Cosigner<Sha, FileDisk<Opened>>> {
    let settings = CosignerSettings {
        id: id_of(alloc, "32473.2")?,
        log: id_of(alloc, "32473.1")?,
        lms: LmsType::H5,
        low: None,
        ots: OtsType::W8,
    };
    let Some(secret) = Secret::from_slice(secret) else {
        bail!("a secret has 48 bytes");
    };
    match begin_cosigner(alloc, device, &settings, &secret) {
        Ok(cosigner) => Ok(cosigner),
        Err(refused) => bail!("the journal: {}", refused.why),
    }
}

// The cosigner that the records of a journal make.
fn opened(
    alloc: Global,
    device: FileDisk<Opened>,
) -> anyhow::Result<Cosigner<Sha, FileDisk<Opened>>> {
    match Cosigner::open(alloc, device) {
        Ok(cosigner) => Ok(cosigner),
        Err(refused) => bail!("the journal: {}", refused.why),
    }
}

// The cosigner of the journal of this name, for this process alone. With a secret the journal is
// new, and a file of its name is refused: a secret begins one journal, once.
fn cosigner_of<R: Files<File = File>>(
    files: &R,
    alloc: Global,
    journal: &str,
    secret: Option<&[u8]>,
) -> anyhow::Result<Cosigner<Sha, FileDisk<Opened>>> {
    match secret {
        Some(secret) => begun(alloc, new_journal(files, journal)?, secret),
        None => opened(alloc, open_journal(files, journal)?),
    }
}

// Signs a subtree, and answers the cosignature. The memory for it is taken before a one-time key is
// used.
fn cosignature<D: Disk>(
    alloc: Global,
    cosigner: &mut Cosigner<Sha, D>,
    request: &SubtreeRequest<'_>,
) -> anyhow::Result<Bytes>
    ensures { IfOk result (λ text. text ≡ signature_text (record {
      cosigner = (cosigner_state cosigner.old).id;
      signature = signature_by (cosigner_state cosigner.old) request.now.start request.now.end
          request.now.hash;
    })) }
{
    let reserved = ReservedSignature::new(alloc, LONGEST)?;
    let mut signature = SigBuf::new();
    match cosigner.cosign(request, &mut signature) {
        Ok(()) => Ok(reserved.fill(cosigner.id().as_bytes(), signature.as_slice())),
        Err(why) => bail!("the subtree: {why}"),
    }
}

// Holds the root of the larger log, and answers the size that is held.
fn held<D: Disk>(cosigner: &mut Cosigner<Sha, D>, request: &[u8]) -> anyhow::Result<u64> {
    match read_advance(request) {
        Ok(request) => match cosigner.advance(&request) {
            Ok(()) => Ok(cosigner.held().0),
            Err(why) => bail!("the larger log: {why}"),
        },
        Err(why) => bail!("the larger log: {why}"),
    }
}

// The signature that a request asks for.
fn signed<D: Disk>(
    alloc: Global,
    cosigner: &mut Cosigner<Sha, D>,
    request: &[u8],
) -> anyhow::Result<Bytes> {
    match read_subtree(request) {
        Ok(request) => cosignature(alloc, cosigner, &request),
        Err(why) => bail!("the subtree: {why}"),
    }
}

fn main(rt: HostRuntime) -> anyhow::Result<()> {
    let alloc = rt.alloc();
    let words: Vec<String> = env::args(&rt)?.skip(1).collect(alloc)?;
    let (journal, larger, subtree, secret) = match words.as_slice() {
        [journal, larger, subtree] => (journal, larger, subtree, None),
        [journal, larger, subtree, secret] => (journal, larger, subtree, Some(secret)),
        _ => bail!("example_cosigner JOURNAL LARGER SUBTREE [SECRET]"),
    };
    let larger = fs::read(&rt, larger.as_str())?;
    let subtree = fs::read(&rt, subtree.as_str())?;
    let mut cosigner = match secret {
        Some(secret) => {
            let secret = fs::read(&rt, secret.as_str())?;
            cosigner_of(&rt, alloc, journal.as_str(), Some(secret.as_slice()))?
        }
        None => cosigner_of(&rt, alloc, journal.as_str(), None)?,
    };
    println!(rt; "held {}", held(&mut cosigner, larger.as_slice())?)?;
    let text = signed(alloc, &mut cosigner, subtree.as_slice())?;
    println!(rt; "{}", hex::encode(alloc, text.as_slice())?)?;
    Ok(())
}
