//! The law of what audits are given: the clauses are the law, and the function does nothing.

ghost use Rattle.std.specs.Prelude.{◌≡◌, ℤ, Ok};
ghost use Rattle.byte_formats.specs.Offsets.{IsBytes};
ghost use Rattle.byte_formats.specs.Types.{HashFunction, Text};
ghost use Rattle.cert_fields.specs.Certificate.{Parts, parts_of};
ghost use Rattle.mtc_proof.specs.Proofs.{ProofParts};
ghost use Rattle.mtc_proof.specs.Reading.{proof_in};
ghost use Rattle.policy_core.specs.Judgement.{judgement};
ghost use Rattle.policy_core.specs.declared.answer.Accepted.{Accepted};
ghost use Rattle.policy_core.specs.declared.store.Store.{Store};
ghost use Rattle.world_core.specs.Audit.{WasJudged};

/// A certificate that is read, with the proof that is read from it, meets the condition of
/// [`audit`](crate::audit) if the store accepts its bytes at some time. The condition on an export
/// is met by
/// [`law_exports_have_allowed_steps`](cosigner_steps::laws::law_exports_have_allowed_steps).
pub fn law_what_is_read_can_be_audited()
    ensures { (h : HashFunction) (bytes : Text) (store : Store) (unix_time : ℤ) (a : Accepted)
        (c : Parts) (p : ProofParts) → IsBytes bytes → judgement h bytes store unix_time ≡ Ok a
        → parts_of bytes ≡ Ok c → proof_in c.proof ≡ Ok p → WasJudged h store c p a }
{}
