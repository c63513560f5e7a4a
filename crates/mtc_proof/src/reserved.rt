//! Memory for a signature, taken before the signature is made.

ghost use Rattle.std.specs.Prelude.{◌≡◌, ◌+◌, ◌<◌, ◌≤◌, ◌^◌, ◌++◌, length, IfOk};
ghost use Rattle.std.specs.Prelude.{vec_len, vec_capacity};
ghost use Rattle.mtc_proof.specs.Proofs.{signature_text};

use mtc_io::{Bytes, Memory};
use std::alloc::Global;
use std::marker::Model;

// The bytes beside a signature at most: the length of an id, the id, and the signature's length.
const BESIDE: usize = 258;

/// Memory for one signature, for who takes all memory before a one-time key signs: then no refused
/// memory can follow. Contracts see it as the length of the longest signature that it has memory
/// for.
#[derive(Drop)]
pub struct ReservedSignature {
    text: Vec<u8>,
    longest: u16,
}

impl Model for ReservedSignature {
    ghost use Rattle.std.specs.Prelude.{ℕ, ◌≡◌, ◌+◌, ◌≤◌, vec_len, vec_capacity};

    ghost Value = { ℕ };

    ghost view = { λ r. r.longest };

    ghost invariant = { λ r. (vec_len r.text ≡ 0) × (258 + r.longest ≤ vec_capacity r.text) };
}

// Appends a piece within the capacity.
fn put(text: &mut Vec<u8>, piece: &[u8])
    requires { vec_len text.old + length piece.now ≤ vec_capacity text.old }
    ensures text { text.new.items ≡ text.old.items ++ piece.now }
    ensures length { vec_len text.new ≡ vec_len text.old + length piece.now }
    ensures capacity { vec_capacity text.old ≤ vec_capacity text.new }
{
    if text.extend_from_slice(piece).is_err() {
        unreachable!()
    }
}

impl ReservedSignature {
    /// Takes memory for a signature of at most so many bytes, with the id and the lengths before
    /// it.
    pub fn new(alloc: Global, longest: u16) -> Result<ReservedSignature, Memory>
        ensures { IfOk result (λ reserved. reserved ≡ longest) }
    {
        Ok(ReservedSignature {
            text: Vec::with_capacity(alloc, BESIDE + longest as usize)?,
            longest,
        })
    }

    /// The bytes of the signature, as [`put_signature`](crate::put_signature) appends them. It
    /// takes no memory.
    pub fn fill(self, cosigner: &[u8], signature: &[u8]) -> Bytes
        requires some { 0 < length cosigner.now }
        requires cosigner_short { length cosigner.now < 2 ^ 8 }
        requires signature_short { length signature.now ≤ self }
        ensures { result ≡ signature_text (record {
          cosigner = cosigner.now;
          signature = signature.now;
        }) }
    {
        let mut text = self.text;
        put(&mut text, &(cosigner.len() as u8).to_be_bytes());
        put(&mut text, cosigner);
        put(&mut text, &(signature.len() as u16).to_be_bytes());
        put(&mut text, signature);
        Bytes::from_vec(text)
    }
}
