//! Reading a proof.

ghost use Rattle.std.specs.Prelude.{◌≡◌, ◌+◌, length, Ok, IfOk};
ghost use Rattle.std.specs.Int.{w16};
ghost use Rattle.byte_formats.specs.Readings.{Moves, Gives, Reads};
ghost use Rattle.tls_wire.specs.Reading.{vector_at};
ghost use Rattle.mtc_proof.specs.Proofs.{ProofParts, proof_text, IsProof};
ghost use Rattle.mtc_proof.specs.Reading.{inside_list, proof_parts_at, proof_in};
ghost use Rattle.mtc_proof.specs.Views.{proof_parts};

use crate::fault::ProofError;
use crate::list::check_rest;
use crate::proof::Proof;
use tls_wire::{Cursor, Short};

// A vector of signatures, as a cursor over them.
fn list<'a>(cursor: &mut Cursor<'a>) -> Result<Cursor<'a>, Short>
    ensures bytes { Reads (λ list. list.rest) (vector_at w16) cursor.old result cursor.new }
    ensures place { IfOk result (λ list. cursor.new.place ≡ list.place + length list.rest) }
{
    cursor.inner16()
}

// The parts of a proof, and a cursor over its signatures, which aren't read.
#[tactic(auto, unfolding(crate::specs::Reading::proof_parts_at))]
fn parts<'a>(cursor: &mut Cursor<'a>) -> Result<(Proof<'a>, Cursor<'a>), ProofError>
    ensures parts { Moves (λ x. proof_parts x.0) proof_parts_at cursor.old result cursor.new }
    ensures list { IfOk result (λ x. x.1 ≡ inside_list (proof_parts x.0, cursor.new)) }
{
    let start = cursor.u64()?;
    let end = cursor.u64()?;
    let path = cursor.hashes()?;
    let list = list(cursor)?;
    let signatures = list.rest();
    let proof = Proof {
        start,
        end,
        path,
        signatures,
    };
    Ok((proof, list))
}

// All of the bytes.
#[tactic(auto, unfolding(crate::specs::Reading::proof_in))]
fn whole(bytes: &[u8]) -> Result<Proof<'_>, ProofError>
    ensures { Gives proof_parts result (proof_in bytes.now) }
{
    let mut cursor = Cursor::new(bytes);
    let (proof, list) = parts(&mut cursor)?;
    check_rest(list)?;
    if cursor.left() > 0 {
        return Err(ProofError::Trailing);
    }
    Ok(proof)
}

/// Reads a proof, without taking memory: start and end of the interval in eight bytes each, the
/// hashes of the path after their length in two bytes, and the signatures after their length in two
/// bytes.
///
/// The first fault from the left is answered: `Short` with the offset of the number, the vector,
/// the id or the signature that doesn't fit; `HashLength` where the length of the path is no
/// multiple of 32; `EmptyId` with the offset of a signature whose cosigner's id has no bytes;
/// `Trailing` where some bytes follow the signatures. Offsets count in the bytes of the proof.
pub fn read_proof(bytes: &[u8]) -> Result<Proof<'_>, ProofError>
    ensures found { IfOk result
        (λ p. (bytes.now ≡ proof_text (proof_parts p)) × IsProof (proof_parts p)) }
    ensures only { (p : ProofParts) → IsProof p → bytes.now ≡ proof_text p
        → Gives proof_parts result (Ok p) }
    ensures exact { Gives proof_parts result (proof_in bytes.now) }
{
    whole(bytes)
}
