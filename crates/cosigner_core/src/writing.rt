//! Writing requests.

ghost use Rattle.std.specs.Prelude.{◌≡◌, ◌++◌, ◌<◌, ◌≤◌, length, Ok, IfOk, OnOk};
ghost use Rattle.tls_wire.specs.Encoding.{AreHashes, hashes};
ghost use Rattle.cosigner_core.specs.Reading.{advance_in, subtree_in};
ghost use Rattle.cosigner_core.specs.Requests.{advance_text, subtree_text};

use mtc_io::{Bytes, Memory};
use std::alloc::Global;
use tls_wire::{put_bytes, put_hashes, put_u64, put_vec8};
use tree_proofs::Path;

// Puts the hashes of a proof, which their type makes as long as hashes are.
fn put_proof(out: &mut Bytes, proof: &[[u8; 32]]) -> Result<(), Memory>
    requires { length proof.now ≤ 128 }
    ensures text { OnOk result (out.new ≡ out.old ++ hashes proof.now) }
    ensures sized { AreHashes proof.now }
{
    put_hashes(out, proof)
}

/// The bytes of a request to hold a larger log: what `read_advance` reads as these parts.
pub fn write_advance(
    alloc: Global,
    log: &[u8],
    size: u64,
    root: &[u8; 32],
    proof: &Path,
) -> Result<Bytes, Memory>
    requires some { 0 < length log.now }
    requires short { length log.now < 256 }
    ensures text { IfOk result (λ bytes. bytes ≡ advance_text
        (record { log = log.now; size = size; root = root.now; proof = proof.now })) }
    ensures read { IfOk result (λ bytes. advance_in bytes ≡ Ok
        (record { log = log.now; size = size; root = root.now; proof = proof.now })) }
{
    let mut out = Bytes::new(alloc);
    put_vec8(&mut out, log)?;
    put_u64(&mut out, size)?;
    put_bytes(&mut out, root)?;
    put_proof(&mut out, proof.as_slice())?;
    Ok(out)
}

/// The bytes of a request to sign the subtree `[start, end)`: what `read_subtree` reads as these
/// parts.
pub fn write_subtree(
    alloc: Global,
    log: &[u8],
    start: u64,
    end: u64,
    hash: &[u8; 32],
    proof: &Path,
) -> Result<Bytes, Memory>
    requires some { 0 < length log.now }
    requires short { length log.now < 256 }
    ensures text { IfOk result (λ bytes. bytes ≡ subtree_text
        (record { log = log.now; start = start; end = end; hash = hash.now; proof = proof.now })) }
    ensures read { IfOk result (λ bytes. subtree_in bytes ≡ Ok
        (record { log = log.now; start = start; end = end; hash = hash.now; proof = proof.now })) }
{
    let mut out = Bytes::new(alloc);
    put_vec8(&mut out, log)?;
    put_u64(&mut out, start)?;
    put_u64(&mut out, end)?;
    put_bytes(&mut out, hash)?;
    put_proof(&mut out, proof.as_slice())?;
    Ok(out)
}
