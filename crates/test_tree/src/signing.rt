//! Proofs of certificates with and without signatures, and what is reported of changes to them.

use mtc_proof::{ProofError, SigRef, check_signatures, read_proof, signatures};

// The interval 4 to 6, one hash, a signature of 05 06 by cosigner 32473.2 and an empty one by
// cosigner 1.
const PROOF: [u8; 65] = [
    0x00, 0x00, 0x00, 0x00, 0x00, 0x00, 0x00, 0x04, 0x00, 0x00, 0x00, 0x00, 0x00, 0x00, 0x00, 0x06,
    0x00, 0x20, 0x07, 0x07, 0x07, 0x07, 0x07, 0x07, 0x07, 0x07, 0x07, 0x07, 0x07, 0x07, 0x07, 0x07,
    0x07, 0x07, 0x07, 0x07, 0x07, 0x07, 0x07, 0x07, 0x07, 0x07, 0x07, 0x07, 0x07, 0x07, 0x07, 0x07,
    0x07, 0x07, 0x00, 0x0D, 0x04, 0x81, 0xFD, 0x59, 0x02, 0x00, 0x02, 0x05, 0x06, 0x01, 0x01, 0x00,
    0x00,
];

// The proof with another byte at one offset.
fn changed(offset: usize, byte: u8) -> [u8; 65] {
    let mut bytes = PROOF;
    if let Some(old) = bytes.get_mut(offset) {
        *old = byte;
    }
    bytes
}

// Whether the proof is read as its parts.
fn parts_are_read() -> bool {
    match read_proof(&PROOF) {
        Ok(proof) => {
            proof.start == 4
                && proof.end == 6
                && proof.path == [[7; 32]].as_slice()
                && proof.signatures == &PROOF[52..]
        }
        Err(_) => false,
    }
}

// Whether the signatures of the proof are these two, in their order.
fn signatures_are(first: SigRef, second: SigRef) -> bool {
    match read_proof(&PROOF) {
        Ok(proof) => {
            let mut found = signatures(&proof);
            found.next() == Some(first) && found.next() == Some(second) && found.next() == None
        }
        Err(_) => false,
    }
}

#[test]
fn a_proof_is_read_as_its_parts(rt: HostRuntime) {
    let first = SigRef {
        cosigner: &[0x81, 0xFD, 0x59, 0x02],
        signature: &[5, 6],
    };
    let second = SigRef {
        cosigner: &[1],
        signature: &[],
    };
    assert!(rt; parts_are_read());
    assert!(rt; signatures_are(first, second));
}

// The fault of the bytes.
fn fault(bytes: &[u8]) -> Option<ProofError> {
    read_proof(bytes).err()
}

#[test]
fn a_changed_byte_is_reported_by_its_offset(rt: HostRuntime) {
    let faults: [(usize, u8, ProofError); 9] = [
        (17, 0x1F, ProofError::HashLength),
        (17, 0x40, ProofError::Short(16)),
        (51, 0x0C, ProofError::Short(63)),
        (51, 0x0E, ProofError::Short(50)),
        (52, 0x00, ProofError::EmptyId(52)),
        (52, 0x05, ProofError::Short(58)),
        (52, 0xFF, ProofError::Short(52)),
        (58, 0x01, ProofError::Short(60)),
        (58, 0x03, ProofError::Short(64)),
    ];
    for (offset, byte, wanted) in faults {
        assert!(rt;
            fault(&changed(offset, byte)) == Some(wanted),
            "{byte} at {offset}"
        );
    }
}

#[test]
fn a_proof_of_another_length_is_refused(rt: HostRuntime) {
    let cuts: [(usize, usize); 6] = [(0, 0), (7, 0), (15, 8), (17, 16), (49, 16), (51, 50)];
    for (length, offset) in cuts {
        assert!(rt;
            PROOF.get(..length).and_then(fault) == Some(ProofError::Short(offset)),
            "{length}"
        );
    }
    let mut longer = [0; 66];
    longer[..65].copy_from_slice(&PROOF);
    assert!(rt; fault(&longer) == Some(ProofError::Trailing));
}

// What a list of signatures is answered.
fn answered(bytes: &[u8]) -> Result<(), ProofError> {
    check_signatures(bytes)
}

#[test]
fn a_list_of_signatures_passes_or_is_refused(rt: HostRuntime) {
    assert!(rt; answered(&PROOF[52..]) == Ok(()));
    assert!(rt; answered(&[]) == Ok(()));
    assert!(rt; answered(&changed(52, 0)[52..]) == Err(ProofError::EmptyId(0)));
    assert!(rt; answered(&changed(58, 1)[52..]) == Err(ProofError::Short(8)));
    assert!(rt; answered(&PROOF[52..53]) == Err(ProofError::Short(0)));
}
