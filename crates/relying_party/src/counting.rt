//! Which cosigners of a store count for a proof.

ghost use Rattle.std.specs.Prelude.{◌≡◌};
ghost use Rattle.std.specs.List.{list_any};
ghost use Rattle.byte_formats.specs.Offsets.{at};
ghost use Rattle.mtc_proof.specs.Reading.{signatures_left};
ghost use Rattle.mtc_proof.specs.Views.{proof_parts, sig_parts};
ghost use Rattle.policy_core.specs.Counting.{counted, counts, has_signed, is_named};
ghost use Rattle.policy_core.specs.Counting.{is_signature_of};

use hss_core::verify;
use mtc_proof::{InputBuf, Proof, SigRef, signature_input, signatures};
use policy_core::{Known, Rule, Store};
use tls_wire::AnchorId;

// The signature has the cosigner's id, and verifies these bytes under its key.
#[tactic(auto, using(crate::proofs::Verified::verified))]
fn is_signature_of(cosigner: &Known, text: &[u8], one: &SigRef) -> bool
    ensures { result ≡ is_signature_of cosigner.now text.now (sig_parts one.now) }
{
    one.cosigner == cosigner.id.as_bytes() && verify(&cosigner.key, text, one.signature).is_ok()
}

// The proof has a signature of the cosigner over these bytes.
fn has_one(cosigner: &Known, text: &[u8], proof: &Proof) -> bool
    ensures { result ≡ list_any (is_signature_of cosigner.now text.now)
        (signatures_left (at proof.now.signatures.now 0)) }
{
    for one in signatures(proof) {
        if is_signature_of(cosigner, text, &one) {
            return true;
        }
    }
    false
}

// The proof has a signature of the cosigner over its interval with this hash.
fn has_signed(cosigner: &Known, log: &AnchorId, proof: &Proof, hash: &[u8; 32]) -> bool
    ensures { result ≡ has_signed log.now (proof_parts proof.now) hash.now cosigner.now }
{
    let mut text = InputBuf::new();
    signature_input(
        cosigner.id.as_bytes(),
        log.as_bytes(),
        proof.start,
        proof.end,
        hash,
        &mut text,
    );
    has_one(cosigner, text.as_slice(), proof)
}

// The cosigner at this index stands in some rule.
fn is_named(rules: &[Rule], place: u32) -> bool
    ensures { result ≡ is_named rules.now place }
{
    rules
        .iter()
        .any(|rule| rule.cosigners.as_slice().contains(&place))
}

// The cosigner at this index counts. No signature is read of one that no rule names.
fn counts(store: &Store, proof: &Proof, hash: &[u8; 32], place: u32, cosigner: &Known) -> bool
    ensures { result ≡ counts store.now (proof_parts proof.now) hash.now place cosigner.now }
{
    is_named(store.rules.as_slice(), place) && has_signed(cosigner, &store.log, proof, hash)
}

/// The cosigners that count for a proof that gives its interval this hash, as a set of bits. By a
/// valid store each signature is verified once at most.
#[tactic(auto, unfolding(policy_core::specs::Counting::counted))]
pub fn counted(store: &Store, proof: &Proof, hash: &[u8; 32]) -> u64
    ensures { result ≡ counted store.now (proof_parts proof.now) hash.now }
{
    let mut set: u64 = 0;
    for (place, cosigner) in store.cosigners.as_slice().iter().enumerate() {
        if counts(store, proof, hash, place as u32, cosigner) {
            set += 1 << place;
        }
    }
    set
}
