//! What a cosigner signs, and proofs that are written.

use crate::known::N0_8;
use crate::requesting::proof_of_second;
use mtc_io::Memory;
use mtc_proof::{InputBuf, check_signatures, signature_input, write_proof};
use std::alloc::Global;
use std::test::Fail;
use tree_proofs::Path;

// What 32473.2 signs of the subtree 0 to 8 of the log 32473.1, but for its hash.
const SIGNED: [u8; 42] = [
    0x6D, 0x74, 0x63, 0x2D, 0x73, 0x75, 0x62, 0x74, 0x72, 0x65, 0x65, 0x2F, 0x76, 0x31, 0x0A, 0x00,
    0x04, 0x81, 0xFD, 0x59, 0x02, 0x04, 0x81, 0xFD, 0x59, 0x01, 0x00, 0x00, 0x00, 0x00, 0x00, 0x00,
    0x00, 0x00, 0x00, 0x00, 0x00, 0x00, 0x00, 0x00, 0x00, 0x08,
];

// Whether the bytes are these, with the hash after them.
fn ends_with_hash(bytes: &[u8], prefix: &[u8]) -> bool {
    bytes.strip_prefix(prefix) == Some(N0_8.as_slice())
}

// Whether the buffer holds this input, and nothing else of what it held.
fn is_signed(out: &mut InputBuf) -> bool {
    let (cosigner, log) = ([0x81, 0xFD, 0x59, 0x02], [0x81, 0xFD, 0x59, 0x01]);
    signature_input(&cosigner, &log, 0, 8, &N0_8, out);
    ends_with_hash(out.as_slice(), &SIGNED)
}

// Whether the longest ids and numbers give the longest input.
fn is_longest(out: &mut InputBuf) -> bool {
    let mut prefix = [0xFF; 544];
    prefix[..16].copy_from_slice(&SIGNED[..16]);
    signature_input(&[0xFF; 255], &[0xFF; 255], u64::MAX, u64::MAX, &N0_8, out);
    ends_with_hash(out.as_slice(), &prefix)
}

#[test]
fn what_is_signed_has_the_known_bytes(rt: HostRuntime) {
    let mut out = InputBuf::new();
    assert!(rt; out.as_slice().is_empty());
    assert!(rt; is_longest(&mut out));
    assert!(rt; is_signed(&mut out));
}

// A signature of 05 06 by cosigner 32473.2 and an empty one by cosigner 1.
const SIGNATURES: [u8; 13] = [
    0x04, 0x81, 0xFD, 0x59, 0x02, 0x00, 0x02, 0x05, 0x06, 0x01, 0x01, 0x00, 0x00,
];

// Whether the proof of the interval 2 to 4 with these parts is written so.
fn is_written(
    alloc: Global,
    path: &Path,
    signatures: &[u8],
    wanted: &[u8],
) -> Result<bool, Memory> {
    if signatures.len() > 65_535 || check_signatures(signatures).is_err() {
        return Ok(false);
    }
    let written = write_proof(alloc, 2, 4, path, signatures)?;
    Ok(written.as_slice() == wanted)
}

#[test]
fn a_written_proof_has_its_bytes(rt: HostRuntime) -> Result<(), Fail> {
    let mut wanted = [0; 65];
    wanted[7] = 2;
    wanted[15] = 4;
    wanted[17] = 0x20;
    wanted[18] = 7;
    wanted[51] = 13;
    wanted[52..].copy_from_slice(&SIGNATURES);
    let path = proof_of_second(rt.alloc())?.ok_or("the path")?;
    assert!(rt; is_written(rt.alloc(), &path, &SIGNATURES, &wanted)?);
    wanted[51] = 0;
    assert!(rt; is_written(rt.alloc(), &path, &[], &wanted[..52])?);
    wanted[17] = 0;
    wanted[18] = 0;
    assert!(rt; is_written(rt.alloc(), &Path::new(), &[], &wanted[..20])?);
    Ok(())
}
