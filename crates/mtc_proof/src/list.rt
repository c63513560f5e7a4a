//! Lists of signatures.

ghost use Rattle.std.specs.Prelude.{◌≡◌, ◌<◌, length, Ok, Err, OnOk, IfErr, IsOk};
ghost use Rattle.byte_formats.specs.Offsets.{at};
ghost use Rattle.byte_formats.specs.Readings.{Moves, Gives, discarded};
ghost use Rattle.byte_formats.specs.Lists.{up_to_end};
ghost use Rattle.mtc_proof.specs.Proofs.{AreSignatures};
ghost use Rattle.mtc_proof.specs.Reading.{mtc_signature_at, checked_signatures, signatures_left};
ghost use Rattle.mtc_proof.specs.Views.{sig_parts};

use crate::fault::ProofError;
use crate::found::Signatures;
use crate::proof::{Proof, SigRef};
use tls_wire::Cursor;

// One signature: the cosigner's id after a length of one byte, and the signature after a length of
// two bytes. `EmptyId` where the id has no bytes.
#[tactic(auto, unfolding(crate::specs::Reading::mtc_signature_at))]
pub(crate) fn signature<'a>(cursor: &mut Cursor<'a>) -> Result<SigRef<'a>, ProofError>
    ensures exact { Moves sig_parts mtc_signature_at cursor.old result cursor.new }
    ensures forward { OnOk result (length cursor.new.rest < length cursor.old.rest) }
{
    let place = cursor.place();
    let cosigner = cursor.vec8()?;
    if cosigner.is_empty() {
        return Err(ProofError::EmptyId(place));
    }
    let signature = cursor.vec16()?;
    Ok(SigRef {
        cosigner,
        signature,
    })
}

// Signatures up to the end.
fn all_signatures(cursor: &mut Cursor) -> Result<(), ProofError>
    ensures ok { OnOk result (discarded (up_to_end mtc_signature_at cursor.old) ≡ Ok cursor.new) }
    ensures err { IfErr result (λ e. discarded (up_to_end mtc_signature_at cursor.old) ≡ Err e) }
{
    while cursor.left() > 0 {
        signature(cursor)?;
    }
    Ok(())
}

// What is left is signatures. Offsets of faults count in the whole input.
pub(crate) fn check_rest(mut cursor: Cursor) -> Result<(), ProofError>
    ensures { Gives (λ x. x) result (checked_signatures cursor.entry) }
{
    all_signatures(&mut cursor)
}

/// Whether the bytes are signatures, one after the other, or none. Refuses with `Short` for an id
/// or a signature that doesn't fit, with the offset of its length, and with `EmptyId` for a
/// signature whose id has no bytes, with the offset of the signature.
pub fn check_signatures(bytes: &[u8]) -> Result<(), ProofError>
    ensures found { OnOk result (AreSignatures bytes.now) }
    ensures only { AreSignatures bytes.now → IsOk result }
    ensures exact { Gives (λ x. x) result (checked_signatures (at bytes.now 0)) }
{
    check_rest(Cursor::new(bytes))
}

/// The signatures of a proof in their order. For a proof that wasn't read they are those up to the
/// first that doesn't read.
pub fn signatures<'a>(p: &Proof<'a>) -> Signatures<'a>
    ensures { result ≡ signatures_left (at p.now.signatures.now 0) }
{
    Signatures::of(p.signatures)
}
