//! Requests to cosigners as bytes, for a log with the id 32473.1.

use cosigner_core::{FormError, read_advance, read_subtree, write_advance, write_subtree};
use mtc_io::Memory;
use std::alloc::Global;
use std::test::Fail;
use tree_core::{Toy, leaf, subtree_ok};
use tree_proofs::{Listed, Nodes, Path, consist};

const LOG: [u8; 4] = [0x81, 0xfd, 0x59, 0x01];

// The consistency proof of [1, 2) in two entries, which is the hash of the first one. None where
// the nodes do not make it.
pub(crate) fn proof_of_second(alloc: Global) -> Result<Option<Path>, Memory> {
    let mut nodes: Listed<Toy> = Listed::new(alloc);
    nodes.push(&leaf::<Toy>(b"\x07"))?;
    nodes.push(&leaf::<Toy>(b"\x08"))?;
    let mut proof = Path::new();
    if !subtree_ok(1, 2) || nodes.size() != 2 {
        return Ok(None);
    }
    match consist(&mut nodes, 1, 2, 2, &mut proof) {
        Ok(()) => Ok(Some(proof)),
        Err(_) => Ok(None),
    }
}

// Whether the bytes are read as a request to hold this log of two entries.
fn is_advance(bytes: &[u8], wanted: &[u8]) -> bool {
    match read_advance(bytes) {
        Ok(request) => {
            bytes == wanted
                && request.log == LOG.as_slice()
                && request.size == 2
                && request.root == [0xaa; 32]
                && request.proof.len() == 0
        }
        Err(_) => false,
    }
}

#[test]
fn a_written_advance_is_read_again(rt: HostRuntime) -> Result<(), Fail> {
    let mut wanted = [0; 47];
    wanted[0] = 4;
    wanted[1..5].copy_from_slice(&LOG);
    wanted[12] = 2;
    wanted[13..45].copy_from_slice(&[0xaa; 32]);
    let written = write_advance(rt.alloc(), &LOG, 2, &[0xaa; 32], &Path::new())?;
    assert!(rt; is_advance(written.as_slice(), &wanted));
    Ok(())
}

// Whether the bytes are read as a request to sign this subtree.
fn is_subtree(bytes: &[u8], wanted: &[u8], made: &Path) -> bool {
    match read_subtree(bytes) {
        Ok(request) => {
            bytes == wanted
                && request.log == LOG.as_slice()
                && request.start == 1
                && request.end == 2
                && request.hash == [0xbb; 32]
                && request.proof == made.as_slice()
        }
        Err(_) => false,
    }
}

#[test]
fn a_written_subtree_is_read_again(rt: HostRuntime) -> Result<(), Fail> {
    let mut wanted = [0; 87];
    wanted[0] = 4;
    wanted[1..5].copy_from_slice(&LOG);
    wanted[12] = 1;
    wanted[20] = 2;
    wanted[21..53].copy_from_slice(&[0xbb; 32]);
    wanted[54] = 32;
    wanted[55] = 7;
    let proof = proof_of_second(rt.alloc())?.ok_or("the proof")?;
    let written = write_subtree(rt.alloc(), &LOG, 1, 2, &[0xbb; 32], &proof)?;
    assert!(rt; is_subtree(written.as_slice(), &wanted, &proof));
    Ok(())
}

// What reading the first bytes of an advance is refused with, where one of them is changed.
fn refused(offset: usize, value: u8, count: usize) -> Option<FormError> {
    let mut bytes = [0; 90];
    bytes[0] = 4;
    bytes[46] = 32;
    if let Some(byte) = bytes.get_mut(offset) {
        *byte = value;
    }
    read_advance(bytes.get(..count)?).err()
}

#[test]
fn an_advance_outside_the_form_is_reported_by_its_offset(rt: HostRuntime) {
    let cases = [
        (0, 4, 79, None),
        (0, 4, 0, Some(FormError::Short(0))),
        (0, 4, 4, Some(FormError::Short(0))),
        (0, 0, 79, Some(FormError::EmptyId)),
        (0, 4, 12, Some(FormError::Short(5))),
        (0, 4, 44, Some(FormError::Short(13))),
        (0, 4, 46, Some(FormError::Short(45))),
        (0, 4, 78, Some(FormError::Short(45))),
        (46, 33, 79, Some(FormError::Short(45))),
        (46, 31, 78, Some(FormError::HashLength)),
        (46, 31, 79, Some(FormError::HashLength)),
        (0, 4, 80, Some(FormError::Trailing)),
    ];
    for (offset, value, count, wanted) in cases {
        assert!(rt;
            refused(offset, value, count) == wanted,
            "{value} at {offset} of {count}"
        );
    }
}

// What reading a subtree is refused with.
fn subtree_refused(bytes: &[u8]) -> Option<FormError> {
    read_subtree(bytes).err()
}

#[test]
fn a_subtree_cut_off_is_reported_by_its_offset(rt: HostRuntime) {
    assert!(rt; subtree_refused(&[1, 9, 0, 0]) == Some(FormError::Short(2)));
}
