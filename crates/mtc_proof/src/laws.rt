//! Laws of proofs and of what is signed: the clauses are the laws, and the functions do nothing.

ghost use Rattle.std.specs.Prelude.{◌≡◌, List, Ok};
ghost use Rattle.byte_formats.specs.Types.{Text};
ghost use Rattle.std.specs.List.{flat_map, AllByRecursion};
ghost use Rattle.byte_formats.specs.Offsets.{IsBytes, at};
ghost use Rattle.byte_formats.specs.Lists.{up_to_end};
ghost use Rattle.byte_formats.specs.Forms.{IsForm, Anything, Nothing};
ghost use Rattle.mtc_proof.specs.Inputs.{InputParts, IsInput, input_text};
ghost use Rattle.mtc_proof.specs.Proofs.{SigParts, ProofParts, signature_text, IsMtcSignature};
ghost use Rattle.mtc_proof.specs.Proofs.{proof_text, IsProof};
ghost use Rattle.mtc_proof.specs.Reading.{mtc_signature_at, signatures_left, proof_in};

/// A signature is read exactly from its encoding, whatever follows it, and so is a list of them,
/// where nothing follows.
pub fn law_signatures_decode_as_encoded()
    ensures one { IsForm signature_text IsMtcSignature Anything mtc_signature_at }
    ensures list { IsForm (flat_map signature_text) (AllByRecursion IsMtcSignature) Nothing
        (up_to_end mtc_signature_at) }
{}

/// In the encoding of a list of signatures just these are found, in their order.
pub fn law_signatures_are_found()
    ensures { (xs : List SigParts) → AllByRecursion IsMtcSignature xs
        → signatures_left (at (flat_map signature_text xs) 0) ≡ xs }
{}

/// What is read as a proof is its encoding, and the encoding of each proof is read as its parts. So
/// a proof has one encoding.
pub fn law_proofs_decode_as_encoded()
    ensures only { (bytes : Text) (p : ProofParts) → IsBytes bytes → proof_in bytes ≡ Ok p
        → (bytes ≡ proof_text p) × IsProof p }
    ensures again { (p : ProofParts) → IsProof p → proof_in (proof_text p) ≡ Ok p }
    ensures one { (p q : ProofParts) → IsProof p → IsProof q → proof_text p ≡ proof_text q → p ≡ q }
{}

/// What a cosigner signs has one meaning: equal bytes are of equal parts.
pub fn law_signature_inputs_have_one_meaning()
    ensures { (p q : InputParts) → IsInput p → IsInput q → input_text p ≡ input_text q → p ≡ q }
{}
