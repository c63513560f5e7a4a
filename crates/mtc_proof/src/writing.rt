//! Writing a proof.

ghost use Rattle.std.specs.Prelude.{◌≡◌, ◌++◌, ◌<◌, ◌≤◌, ◌^◌, length, Ok, IfOk, OnErr, OnOk};
ghost use Rattle.tls_wire.specs.Encoding.{AreHashes, hashes};
ghost use Rattle.mtc_proof.specs.Proofs.{AreSignatures, proof_text, signature_text};
ghost use Rattle.mtc_proof.specs.Reading.{proof_in};

use mtc_io::{Bytes, Memory};
use std::alloc::Global;
use tls_wire::{put_hashes, put_u64, put_vec8, put_vec16};
use tree_proofs::Path;

/// Appends a signature to the bytes: the id of the cosigner after its length of one byte, and what
/// it signed with after its length of two bytes (the draft on Merkle Tree Certificates, where it
/// defines `MTCSignature`). An id has from 1 to 255 bytes, a signature at most 65,535. Signatures
/// that stand one after the other, or no bytes, become such again. If memory is refused, the bytes
/// stay as they were.
pub fn put_signature(out: &mut Bytes, cosigner: &[u8], signature: &[u8]) -> Result<(), Memory>
    requires some { 0 < length cosigner.now }
    requires cosigner_short { length cosigner.now < 2 ^ 8 }
    requires signature_short { length signature.now < 2 ^ 16 }
    ensures ok { OnOk result (out.new ≡ out.old ++ signature_text (record {
      cosigner = cosigner.now;
      signature = signature.now;
    })) }
    ensures err { OnErr result (out.new ≡ out.old) }
    ensures listed { AreSignatures out.old → OnOk result (AreSignatures out.new) }
{
    let before = out.len();
    put_vec8(out, cosigner)?;
    match put_vec16(out, signature) {
        Ok(()) => Ok(()),
        Err(refused) => {
            out.truncate(before);
            Err(refused)
        }
    }
}

// Appends the length of a path and its hashes, which their type makes as long as hashes are.
fn put_path(out: &mut Bytes, path: &[[u8; 32]]) -> Result<(), Memory>
    requires { length path.now ≤ 128 }
    ensures text { OnOk result (out.new ≡ out.old ++ hashes path.now) }
    ensures sized { AreHashes path.now }
{
    put_hashes(out, path)
}

/// The bytes of a proof: what `read_proof` reads as these parts. The signatures stand one after the
/// other, as `check_signatures` wants them, and have at most 65,535 bytes. The call doesn't test
/// whether the interval is a subtree, nor whether the path is one in it.
pub fn write_proof(
    alloc: Global,
    start: u64,
    end: u64,
    path: &Path,
    signatures: &[u8],
) -> Result<Bytes, Memory>
    requires signed { AreSignatures signatures.now }
    requires short { length signatures.now < 2 ^ 16 }
    ensures text { IfOk result (λ bytes. bytes ≡ proof_text (record {
      start = start;
      end = end;
      path = path.now;
      signatures = signatures.now;
    })) }
    ensures read { IfOk result (λ bytes. proof_in bytes ≡ Ok (record {
      start = start;
      end = end;
      path = path.now;
      signatures = signatures.now;
    })) }
{
    let mut out = Bytes::new(alloc);
    put_u64(&mut out, start)?;
    put_u64(&mut out, end)?;
    put_path(&mut out, path.as_slice())?;
    put_vec16(&mut out, signatures)?;
    Ok(out)
}
