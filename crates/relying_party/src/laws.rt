//! Laws of judgements: the clauses are the laws, and the functions do nothing.

ghost use Rattle.std.specs.Prelude.{◌≡◌, ◌⊎◌, ℕ, ◌<◌, ◌≤◌, true, false, ℤ, List, length, slice_get};
ghost use Rattle.std.specs.Prelude.{slice_index_or, Some, Ok};
ghost use Rattle.std.specs.List.{AllByRecursion, Contains, flat_map, list_any};
ghost use Rattle.byte_formats.specs.Offsets.{IsBytes};
ghost use Rattle.byte_formats.specs.Types.{Hash, HashFunction, Text};
ghost use Rattle.hss_core.specs.Hss.{Verifies};
ghost use Rattle.mtc_proof.specs.Inputs.{signed_text};
ghost use Rattle.mtc_proof.specs.Proofs.{IsMtcSignature, ProofParts, SigParts, signature_text};
ghost use Rattle.policy_core.specs.Counting.{counted, counts, has_signed, is_in_set, is_named};
ghost use Rattle.policy_core.specs.Counting.{is_signature_of};
ghost use Rattle.policy_core.specs.declared.cosigners.Known.{Known};
ghost use Rattle.policy_core.specs.Stores.{IsValid};
ghost use Rattle.policy_core.specs.declared.answer.Accepted.{Accepted};
ghost use Rattle.policy_core.specs.declared.store.Store.{Store};
ghost use Rattle.policy_core.specs.Acceptance.{HoldsNoOther, IsAccepted, IsCosigned, IsSatisfied};
ghost use Rattle.policy_core.specs.Acceptance.{IsTrusted, Trusts, accepted_by};
ghost use Rattle.policy_core.specs.Judgement.{judgement};

/// A certificate is accepted exactly if its bytes encode a certificate of the store's log that is
/// valid at the time, isn't revoked and has no critical extension that isn't known, and the path of
/// its proof gives the proof's interval the hash that a valid store trusts there, or, if it trusts
/// none, one for which enough cosigners count; for every hash function. So a store that trusts no
/// other hash for the interval has a way to accept this one if it trusts it or its rules are met.
pub fn law_accepted_certificates()
    ensures only { (h : HashFunction) (bytes : Text) (store : Store) (now : ℤ) (a : Accepted)
        → IsBytes bytes → judgement h bytes store now ≡ Ok a → IsAccepted h bytes store now a }
    ensures again { (h : HashFunction) (bytes : Text) (store : Store) (now : ℤ) (a : Accepted)
        → IsValid store → IsAccepted h bytes store now a → judgement h bytes store now ≡ Ok a }
    ensures ways { (store : Store) (p : ProofParts) (hash : Hash)
        → HoldsNoOther store p.start p.end hash
        → Trusts store p.start p.end hash ⊎ IsSatisfied store p hash
        → IsTrusted store p hash (accepted_by store p hash)
        ⊎ IsCosigned store p hash (accepted_by store p hash) }
{}

/// The set of the cosigners that count has the one at an index exactly if some rule names that
/// index and the proof has a signature of it. It has no other index: none after the cosigners, and
/// none that no rule names. If the signatures of the proof encode a list, it has one of a cosigner
/// exactly if one of the list has the cosigner's id and verifies under its key.
pub fn law_counted_cosigners()
    ensures set { (store : Store) (p : ProofParts) (hash : Hash) (place : ℕ) (k : Known)
        → place < length store.cosigners
        → is_in_set (counted store p hash) place
        ≡ counts store p hash place (slice_index_or store.cosigners place k) }
    ensures none { (store : Store) (p : ProofParts) (hash : Hash) (place : ℕ)
        → (length store.cosigners ≤ place) ⊎ (is_named store.rules place ≡ false)
        → is_in_set (counted store p hash) place ≡ false }
    ensures signed { (log : Text) (p : ProofParts) (hash : Hash) (k : Known) (xs : List SigParts)
        → AllByRecursion IsMtcSignature xs → p.signatures ≡ flat_map signature_text xs
        → has_signed log p hash k
        ≡ list_any (is_signature_of k (signed_text k.id log p.start p.end hash)) xs }
{}

/// A cosigner of the store whom some rule names counts where a signature in the proof has its id
/// and verifies, under its key, what it signs of the proof's interval in the store's log. So what a
/// cosigner answers counts for each store that has its id and public key.
pub fn law_cosignatures_count()
    ensures { (store : Store) (p : ProofParts) (hash : Hash) (place : ℕ) (k : Known)
        (xs : List SigParts) (signature : Text)
        → slice_get store.cosigners place ≡ Some k → is_named store.rules place ≡ true
        → AllByRecursion IsMtcSignature xs → p.signatures ≡ flat_map signature_text xs
        → Contains xs (record { cosigner = k.id; signature = signature })
        → Verifies k.key (signed_text k.id store.log p.start p.end hash) signature
        → is_in_set (counted store p hash) place ≡ true }
{}
