//! The judgement of a certificate.

ghost use Rattle.std.specs.Prelude.{◌≡◌};
ghost use Rattle.cert_fields.specs.Views.{parts};
ghost use Rattle.policy_core.specs.Judgement.{judged, judgement};

use crate::admission::admit;
use crate::trust::decide;
use cert_fields::{Cert, parse};
use log_entry::entry_hash;
use mtc_proof::read_proof;
use policy_core::{Accepted, Refusal, ValidStore};
use tree_core::{TreeHash, evaluate};

/// Judges a certificate that was read at a time, in seconds since 1970-01-01T00:00:00Z, without
/// taking memory. So a caller who reads a certificate once has its fields and its judgement.
///
/// It is refused with the first of these that holds: `Algorithm` where its algorithm isn't that of
/// Merkle tree proofs, without parameters; `UnknownLog` where its issuer isn't the store's name,
/// byte for byte; `NotYet` and `Expired` where the time is before its first or after its last one;
/// `UnknownCritical` where a critical extension is none of subjectAltName, basicConstraints,
/// keyUsage and extKeyUsage; `Revoked` where its serial number lies in a revoked range;
/// `ProofGrammar` where the bytes of its signature aren't a proof; `ProofShape` where the path has
/// no value for its entry, which stands in the log at the serial number, in the interval of the
/// proof; `LandmarkDiffers` where the interval is trusted with another hash than the path's value;
/// `TooFewCosigners` where the interval isn't trusted, with the first rule that isn't met, counted
/// from 1, or 0 where there is no rule. A rule is met where at least as many of its cosigners as it
/// asks for have a signature in the proof that verifies (RFC 8554, section 6.3). No signature is
/// verified if the interval is trusted; else none that no rule names, and each once at most.
#[tactic(auto, unfolding(policy_core::specs::Judgement::judged))]
pub fn judge_cert<H: TreeHash>(
    cert: &Cert,
    store: &ValidStore,
    now: i64,
) -> Result<Accepted, Refusal>
    ensures { result ≡ judged H.hash store.now now (parts cert.now) }
{
    let store = store.as_store();
    admit(cert, store, now)?;
    let proof = read_proof(cert.proof)?;
    let leaf = entry_hash::<H>(cert, store.form_at(cert.serial));
    let hash = evaluate::<H>(&leaf, cert.serial, proof.start, proof.end, proof.path)?;
    decide(store, cert.serial, &proof, &hash)
}

/// Judges the bytes of a certificate at a time, in seconds since 1970-01-01T00:00:00Z, without
/// taking memory. They are refused with `Grammar` where they aren't a certificate, and else with
/// the first refusal of [`judge_cert`].
#[tactic(auto, unfolding(policy_core::specs::Judgement::judgement))]
pub fn judge<H: TreeHash>(cert: &[u8], store: &ValidStore, now: i64) -> Result<Accepted, Refusal>
    ensures { result ≡ judgement H.hash cert.now store.now now }
{
    let cert = parse(cert)?;
    judge_cert::<H>(&cert, store, now)
}
