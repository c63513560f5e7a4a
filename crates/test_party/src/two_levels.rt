//! A cosigner whose key has two levels, each of height 5 and width 4.

use crate::cosigners::{
    MemCosigner, advance_to_4, cosigner_in, disk_after, has_the_key, ids, is_known, of_eight,
    opened, secret,
};
use crate::journals::{disk, left, no_bytes};
use crate::known::{Known, LOG, NODE_4_TO_6, PUBLIC, ROOT_OF_4};
use cosigner_core::{
    AdvanceRequest, ChildError, CosignError, CosignerSettings, KeylessCosigner, SubtreeRequest,
    create,
};
use disk_core::MemDisk;
use hss_core::{LmsType, OtsType, PUBLIC_KEY_LEN, SigBuf, verify};
use journal_core::{AppendError, Refused};
use mtc_io::Memory;
use mtc_proof::{InputBuf, signature_input};
use std::alloc::Global;
use std::test::Fail;
use tree_core::Sha;

// What an implementation that stands apart made of it. The journal of the new cosigner.
pub(crate) const NEW_OF_TWO: [u8; 93] = [
    0x6D, 0x74, 0x63, 0x2D, 0x6A, 0x6F, 0x75, 0x72, 0x6E, 0x61, 0x6C, 0x2F, 0x76, 0x31, 0x0A, 0x00,
    0x01, 0x00, 0x00, 0x00, 0x47, 0x15, 0x04, 0x81, 0xFD, 0x59, 0x02, 0x04, 0x81, 0xFD, 0x59, 0x01,
    0x00, 0x00, 0x00, 0x05, 0x00, 0x00, 0x00, 0x05, 0x00, 0x00, 0x00, 0x03, 0x02, 0x02, 0x02, 0x02,
    0x02, 0x02, 0x02, 0x02, 0x02, 0x02, 0x02, 0x02, 0x02, 0x02, 0x02, 0x02, 0x07, 0x07, 0x07, 0x07,
    0x07, 0x07, 0x07, 0x07, 0x07, 0x07, 0x07, 0x07, 0x07, 0x07, 0x07, 0x07, 0x07, 0x07, 0x07, 0x07,
    0x07, 0x07, 0x07, 0x07, 0x07, 0x07, 0x07, 0x07, 0x07, 0x07, 0x07, 0x07, 0x00,
];

// The journal after an Advance to four entries, after the first Child, and after a Sign of all.
const JOURNALS: [Known; 3] = [
    (
        141,
        [
            0xEF, 0x07, 0xFD, 0xBE, 0xC3, 0xF0, 0x57, 0x54, 0x10, 0xC0, 0xA1, 0x80, 0x28, 0x3A,
            0x50, 0x12, 0xF1, 0x28, 0xFB, 0x0E, 0x91, 0x81, 0xC8, 0xBC, 0x76, 0xD8, 0x26, 0x6D,
            0x5F, 0x66, 0x38, 0x15,
        ],
    ),
    (
        155,
        [
            0x9D, 0xDE, 0x3F, 0x13, 0x34, 0x76, 0x7C, 0x71, 0x3C, 0x9F, 0x50, 0x71, 0xEF, 0x2F,
            0x46, 0x60, 0x96, 0xF6, 0xDF, 0xBE, 0x33, 0x60, 0xBA, 0x55, 0xE5, 0xDD, 0xBE, 0x15,
            0x3F, 0x4A, 0xC5, 0x55,
        ],
    ),
    (
        215,
        [
            0x9C, 0xDA, 0xC5, 0xEB, 0xA0, 0x1F, 0xFF, 0xC7, 0x98, 0x84, 0xA7, 0xF7, 0x24, 0xB8,
            0x0B, 0xA1, 0x2E, 0x2D, 0xB6, 0x7C, 0xD4, 0x86, 0xBC, 0xFE, 0xD2, 0xF8, 0x01, 0xFC,
            0x22, 0x9B, 0x92, 0xD8,
        ],
    ),
];

// The journal after 32 Signs, the next Child and one Sign more.
const OF_TWO_TREES: Known = (
    2149,
    [
        0x8A, 0x99, 0xA9, 0xD2, 0xE5, 0xFB, 0xF0, 0xA0, 0xAE, 0xDD, 0x1A, 0x6D, 0x1C, 0x86, 0x69,
        0x5B, 0xFB, 0x2D, 0xCB, 0x11, 0x3D, 0x43, 0xE9, 0xFD, 0xE5, 0x23, 0x69, 0xB8, 0xE8, 0x98,
        0x0E, 0xDA,
    ],
);

// The first signature of each lower tree.
const FIRST_SIGNATURES: [Known; 2] = [
    (
        4756,
        [
            0x64, 0x80, 0xEC, 0x61, 0x6E, 0x51, 0xAE, 0x88, 0xE9, 0xD9, 0x46, 0x78, 0x99, 0x03,
            0x99, 0xFD, 0x96, 0xFF, 0xFF, 0x92, 0xC8, 0xC0, 0x95, 0x58, 0x61, 0x42, 0x5D, 0xF4,
            0xE3, 0xFB, 0x8E, 0xFA,
        ],
    ),
    (
        4756,
        [
            0x37, 0x59, 0xA0, 0xD2, 0x18, 0x89, 0x9A, 0x17, 0xF2, 0xE7, 0xF7, 0x01, 0xC0, 0x03,
            0x87, 0x4C, 0x2C, 0xED, 0x85, 0xE2, 0x8B, 0x49, 0xE8, 0xEF, 0xFF, 0x1F, 0x1A, 0x4D,
            0xB9, 0xDD, 0xBB, 0xA1,
        ],
    ),
];

/// The public key: that of one level with the same tree, but for the number of levels.
pub(crate) fn public_of_two() -> [u8; PUBLIC_KEY_LEN] {
    let mut public = PUBLIC;
    public[3] = 2;
    public
}

// The disk on which its journal begins; none where it doesn't.
fn begun(alloc: Global) -> Result<Option<MemDisk>, Memory> {
    let secret = secret().ok_or(Memory)?;
    let (id, log) = ids(alloc)?;
    let settings = CosignerSettings {
        id,
        log,
        lms: LmsType::H5,
        low: Some(LmsType::H5),
        ots: OtsType::W4,
    };
    Ok(match create(alloc, no_bytes(alloc), &settings, &secret) {
        Ok(journal) => Some(journal.into_disk()),
        Err(Refused { .. }) => None,
    })
}

fn is_begun(alloc: Global) -> Result<bool, Memory> {
    match begun(alloc)? {
        Some(made) => Ok(made.bytes() == NEW_OF_TWO.as_slice()),
        None => Ok(false),
    }
}

// Signs the first four entries, if this is their root.
fn sign_four_of(
    cosigner: &mut MemCosigner,
    hash: [u8; 32],
    out: &mut SigBuf,
) -> Result<(), CosignError> {
    let request = SubtreeRequest {
        log: &LOG,
        start: 0,
        end: 4,
        hash,
        proof: &[],
    };
    cosigner.cosign(&request, out)
}

fn sign_four(cosigner: &mut MemCosigner, out: &mut SigBuf) -> Result<(), CosignError> {
    sign_four_of(cosigner, ROOT_OF_4, out)
}

// Whether a signature of them is refused for this reason, and none is left.
fn refuses_to_sign(cosigner: &mut MemCosigner, why: CosignError) -> bool {
    let mut out = SigBuf::new();
    out.append(&[1, 2, 3]);
    sign_four(cosigner, &mut out) == Err(why) && out.as_slice().is_empty()
}

pub(crate) fn child(alloc: Global, cosigner: &mut MemCosigner) -> Result<u32, ChildError> {
    cosigner.child(alloc)
}

// The cosigner that holds four entries, over a disk of which these calls fail.
fn of_four(alloc: Global, failing: &[u64]) -> Result<Option<MemCosigner>, Memory> {
    let Some(mut cosigner) = cosigner_in(alloc, &NEW_OF_TWO, failing)? else {
        return Ok(None);
    };
    let held = advance_to_4(&mut cosigner).is_ok();
    Ok(if held { Some(cosigner) } else { None })
}

fn put_input(out: &mut InputBuf) {
    signature_input(&[0x81, 0xFD, 0x59, 0x02], &LOG, 0, 4, &ROOT_OF_4, out);
}

// Whether the next signature is this one, and verifies.
fn signs_as(cosigner: &mut MemCosigner, known: Known) -> bool {
    let (mut out, mut input) = (SigBuf::new(), InputBuf::new());
    put_input(&mut input);
    sign_four(cosigner, &mut out).is_ok()
        && is_known(out.as_slice(), known)
        && verify(&public_of_two(), input.as_slice(), out.as_slice()).is_ok()
}

// Whether a call of the walk answers as it has to.
fn walks_on(alloc: Global, cosigner: &mut MemCosigner, call: usize) -> bool {
    match call {
        0 => advance_to_4(cosigner).is_ok(),
        1 => refuses_to_sign(cosigner, CosignError::NeedsChild),
        2 => child(alloc, cosigner) == Ok(0),
        3 => child(alloc, cosigner) == Err(ChildError::ChildLeft(32)),
        4 => signs_as(cosigner, FIRST_SIGNATURES[0]),
        _ => child(alloc, cosigner) == Err(ChildError::ChildLeft(31)),
    }
}

// The journal that a call of the walk leaves, by the journal before it, if it is the known one.
fn walked(alloc: Global, journal: MemDisk, call: usize, known: usize) -> Option<MemDisk> {
    let known = *JOURNALS.get(known)?;
    let mut cosigner = opened(alloc, journal)?;
    let answered = cosigner.public() == public_of_two() && walks_on(alloc, &mut cosigner, call);
    let left = disk_after(cosigner);
    if answered && is_known(left.bytes(), known) {
        Some(left)
    } else {
        None
    }
}

#[test]
fn a_lower_tree_is_made_before_it_signs(rt: HostRuntime) -> Result<(), Fail> {
    assert!(rt; is_begun(rt.alloc())?);
    let mut journal = disk(rt.alloc(), &NEW_OF_TWO, &[])?;
    for (call, known) in [0, 0, 1, 1, 2, 2].into_iter().enumerate() {
        journal = walked(rt.alloc(), journal, call, known).ok_or("the journal")?;
    }
    Ok(())
}

// Signs with each one-time key of a lower tree: whether each signed.
fn sign_tree(cosigner: &mut MemCosigner) -> bool {
    let mut out = SigBuf::new();
    for _ in 0..32 {
        if sign_four(cosigner, &mut out).is_err() {
            return false;
        }
    }
    true
}

/// The cosigner that holds four entries, with its first lower tree and one signature.
pub(crate) fn with_a_signature(alloc: Global) -> Result<Option<MemCosigner>, Memory> {
    let Some(mut cosigner) = of_four(alloc, &[])? else {
        return Ok(None);
    };
    let signed = child(alloc, &mut cosigner) == Ok(0)
        && sign_four(&mut cosigner, &mut SigBuf::new()).is_ok();
    Ok(if signed { Some(cosigner) } else { None })
}

// Whether a second lower tree follows one that is used up, and signs.
fn is_followed(alloc: Global, cosigner: &mut MemCosigner) -> bool {
    child(alloc, cosigner) == Ok(0)
        && sign_tree(cosigner)
        && refuses_to_sign(cosigner, CosignError::NeedsChild)
        && child(alloc, cosigner) == Ok(1)
        && signs_as(cosigner, FIRST_SIGNATURES[1])
}

fn has_two_trees(alloc: Global) -> Result<bool, Memory> {
    let Some(mut cosigner) = of_four(alloc, &[])? else {
        return Ok(false);
    };
    let followed = is_followed(alloc, &mut cosigner);
    Ok(is_known(disk_after(cosigner).bytes(), OF_TWO_TREES) && followed)
}

#[test]
fn lower_trees_sign_one_after_the_other(rt: HostRuntime) -> Result<(), Fail> {
    assert!(rt; has_two_trees(rt.alloc())?);
    Ok(())
}

pub(crate) type MemKeyless = KeylessCosigner<Sha, MemDisk>;

// The cosigner without its key that holds four entries, and then has its first lower tree. None
// where it makes another one, or a second one.
fn child_without_key(alloc: Global, journal: MemDisk) -> Option<MemKeyless> {
    let Ok(mut keyless) = MemKeyless::open(alloc, journal) else {
        return None;
    };
    let to_4 = AdvanceRequest {
        log: &LOG,
        size: 4,
        root: ROOT_OF_4,
        proof: &[],
    };
    let made = keyless.advance(&to_4).is_ok()
        && keyless.child() == Ok(0)
        && keyless.child() == Err(ChildError::ChildLeft(32));
    if made { Some(keyless) } else { None }
}

// Whether it signs with its key as the other one does.
fn signs_with_key(alloc: Global, keyless: MemKeyless) -> Option<bool> {
    let Ok(mut cosigner) = MemCosigner::with_key(alloc, keyless) else {
        return None;
    };
    let signed = signs_as(&mut cosigner, FIRST_SIGNATURES[0]);
    Some(is_known(disk_after(cosigner).bytes(), JOURNALS[2]) && signed)
}

fn needs_no_key(alloc: Global) -> Result<Option<bool>, Memory> {
    let journal = disk(alloc, &NEW_OF_TWO, &[])?;
    Ok(match child_without_key(alloc, journal) {
        Some(keyless) => signs_with_key(alloc, keyless),
        None => None,
    })
}

#[test]
fn a_child_needs_no_key(rt: HostRuntime) -> Result<(), Fail> {
    assert!(rt; needs_no_key(rt.alloc())? == Some(true));
    Ok(())
}

// What a cosigner of one level answers, if it has its key then.
fn asked_of_one_level(alloc: Global) -> Result<Option<Result<u32, ChildError>>, Memory> {
    match of_eight(alloc, &[])? {
        Some(mut cosigner) => {
            let answer = child(alloc, &mut cosigner);
            Ok(if has_the_key(&cosigner) {
                Some(answer)
            } else {
                None
            })
        }
        None => Ok(None),
    }
}

#[test]
fn a_key_of_one_level_has_no_lower_trees(rt: HostRuntime) -> Result<(), Fail> {
    assert!(rt; asked_of_one_level(rt.alloc())? == Some(Err(ChildError::OneLevel)));
    Ok(())
}

// Whether the proof is tested before the key.
fn tests_the_proof_first(alloc: Global) -> Result<bool, Memory> {
    let Some(mut cosigner) = of_four(alloc, &[])? else {
        return Ok(false);
    };
    let answer = sign_four_of(&mut cosigner, NODE_4_TO_6, &mut SigBuf::new());
    let needs = refuses_to_sign(&mut cosigner, CosignError::NeedsChild);
    Ok(answer == Err(CosignError::BadProof) && needs)
}

#[test]
fn a_missing_lower_tree_is_reported_after_the_proof(rt: HostRuntime) -> Result<(), Fail> {
    assert!(rt; tests_the_proof_first(rt.alloc())?);
    Ok(())
}

// Whether a lower tree whose record isn't appended is none, and no further one is made.
fn is_broken(alloc: Global, cosigner: &mut MemCosigner) -> bool {
    child(alloc, cosigner) == Err(ChildError::Append(AppendError::Failed))
        && child(alloc, cosigner) == Err(ChildError::Append(AppendError::Broken))
        && refuses_to_sign(cosigner, CosignError::NeedsChild)
}

// Whether the next call on a crash state makes the lower tree, or finds it there; then it signs.
fn goes_on(alloc: Global, crash_state: MemDisk) -> bool {
    let Some(mut cosigner) = opened(alloc, crash_state) else {
        return false;
    };
    let answer = child(alloc, &mut cosigner);
    (answer == Ok(0) || answer == Err(ChildError::ChildLeft(32)))
        && signs_as(&mut cosigner, FIRST_SIGNATURES[0])
}

fn all_go_on(alloc: Global, journal: &MemDisk) -> Result<bool, Memory> {
    for pick in 0..4 {
        if !goes_on(alloc, left(journal, pick)?) {
            return Ok(false);
        }
    }
    Ok(true)
}

// Whether a Child in which this call of the disk fails is none, or the one that comes next. The
// calls before are four of the opening, and four of the Advance.
fn stops_soundly(alloc: Global, call: u64) -> Result<bool, Memory> {
    let Some(mut cosigner) = of_four(alloc, &[call])? else {
        return Ok(false);
    };
    let broken = is_broken(alloc, &mut cosigner);
    Ok(all_go_on(alloc, &disk_after(cosigner))? && broken)
}

#[test]
fn a_lower_tree_is_made_once_after_a_stop(rt: HostRuntime) -> Result<(), Fail> {
    for call in 8..12 {
        assert!(rt; stops_soundly(rt.alloc(), call)?, "call {call}");
    }
    Ok(())
}
