//! A cosigner from its first record to its last one-time key.

use crate::cosigners::{
    MemCosigner, advance_to_4, advance_to_8, begin, cosigner_in, disk_after, has_the_key, held,
    is_known, of_eight, opened, sign_32, sign_all, sign_two,
};
use crate::journals::disk;
use crate::known::{
    JOURNALS, LAST_JOURNAL, LAST_SIGNATURE, LOG, NEW, NODE_4_TO_8, PUBLIC, ROOT_OF_4, ROOT_OF_8,
    SIGNATURES,
};
use cosigner_core::{AdvanceRequest, CosignError, KeylessCosigner};
use disk_core::MemDisk;
use hss_core::{SigBuf, verify};
use journal_core::StartError;
use mtc_io::Memory;
use mtc_proof::{InputBuf, signature_input};
use std::alloc::Global;
use std::test::Fail;
use tree_core::Sha;

// Whether the journal of a new cosigner is the known one.
fn is_begun(alloc: Global) -> Result<bool, Memory> {
    let (made, why) = begin(alloc, MemDisk::new(alloc, Vec::new(alloc)))?;
    Ok(why.is_none() && made.bytes() == NEW.as_slice())
}

// What a beginning on a disk with a byte is refused with; the byte stays.
fn begun_twice(alloc: Global) -> Result<(Option<StartError>, bool), Memory> {
    let (left, why) = begin(alloc, disk(alloc, &[9], &[])?)?;
    Ok((why, left.bytes() == [9].as_slice()))
}

fn is_the_new_one(cosigner: &MemCosigner) -> bool {
    cosigner.id().as_bytes() == [0x81, 0xFD, 0x59, 0x02].as_slice()
        && has_the_key(cosigner)
        && held(cosigner).0 == 0
}

// Whether the new cosigner shows what it is.
fn shows_itself(alloc: Global) -> Result<bool, Memory> {
    match cosigner_in(alloc, &NEW, &[])? {
        Some(cosigner) => Ok(is_the_new_one(&cosigner)),
        None => Ok(false),
    }
}

#[test]
fn a_new_cosigner_has_one_record(rt: HostRuntime) -> Result<(), Fail> {
    assert!(rt; is_begun(rt.alloc())?);
    assert!(rt; begun_twice(rt.alloc())? == (Some(StartError::NotEmpty), true));
    assert!(rt; shows_itself(rt.alloc())?);
    Ok(())
}

// The call of the walk with this number.
fn walk_on(cosigner: &mut MemCosigner, call: usize) -> Result<(), CosignError> {
    let mut out = SigBuf::new();
    match call {
        0 => advance_to_4(cosigner),
        1 => advance_to_8(cosigner),
        2 => sign_all(cosigner, &mut out),
        _ => sign_two(cosigner, &mut out),
    }
}

// Whether a call of the walk is done, and this is held then.
fn holds_following(cosigner: &mut MemCosigner, call: usize, wanted: (u64, [u8; 32])) -> bool {
    walk_on(cosigner, call).is_ok() && held(cosigner) == wanted
}

// Whether the journal is the one that is known after a call of the walk.
fn is_left(journal: &MemDisk, call: usize) -> bool {
    match JOURNALS.get(call) {
        Some(known) => is_known(journal.bytes(), *known),
        None => false,
    }
}

// The journal that a call of the walk leaves, by the journal before it, where it is the known one
// and this is held.
fn walked(
    alloc: Global,
    journal: MemDisk,
    call: usize,
    wanted: (u64, [u8; 32]),
) -> Option<MemDisk> {
    let mut cosigner = opened(alloc, journal)?;
    let done = holds_following(&mut cosigner, call, wanted);
    let left = disk_after(cosigner);
    let known = is_left(&left, call);
    if done && known { Some(left) } else { None }
}

#[test]
fn each_call_adds_its_record(rt: HostRuntime) -> Result<(), Fail> {
    let steps = [
        (4, ROOT_OF_4),
        (8, ROOT_OF_8),
        (8, ROOT_OF_8),
        (8, ROOT_OF_8),
    ];
    let mut journal = disk(rt.alloc(), &NEW, &[])?;
    for (call, wanted) in steps.into_iter().enumerate() {
        journal = walked(rt.alloc(), journal, call, wanted).ok_or("the journal")?;
    }
    Ok(())
}

// What a signature of all eight entries signs.
fn input_of_all(out: &mut InputBuf) {
    signature_input(&[0x81, 0xFD, 0x59, 0x02], &LOG, 0, 8, &ROOT_OF_8, out);
}

// Whether the first signature of the walk verifies.
fn verifies(signature: &[u8]) -> bool {
    let mut input = InputBuf::new();
    input_of_all(&mut input);
    verify(&PUBLIC, input.as_slice(), signature).is_ok()
}

// Whether both signatures of the walk are the known ones.
fn signs_both(cosigner: &mut MemCosigner, out: &mut SigBuf) -> bool {
    sign_all(cosigner, out).is_ok()
        && is_known(out.as_slice(), SIGNATURES[0])
        && verifies(out.as_slice())
        && sign_two(cosigner, out).is_ok()
        && is_known(out.as_slice(), SIGNATURES[1])
}

fn signs(alloc: Global) -> Result<bool, Memory> {
    match of_eight(alloc, &[])? {
        Some(mut cosigner) => Ok(signs_both(&mut cosigner, &mut SigBuf::new())),
        None => Ok(false),
    }
}

#[test]
fn signatures_are_those_of_the_standard(rt: HostRuntime) -> Result<(), Fail> {
    assert!(rt; signs(rt.alloc())?);
    Ok(())
}

// The cosigner without its key that has made the first two calls of the walk.
fn advanced_without_key(alloc: Global) -> Result<Option<KeylessCosigner<Sha, MemDisk>>, Memory> {
    let journal = disk(alloc, &NEW, &[])?;
    let Ok(mut keyless) = KeylessCosigner::<Sha, MemDisk>::open(alloc, journal) else {
        return Ok(None);
    };
    let to_4 = AdvanceRequest {
        log: &LOG,
        size: 4,
        root: ROOT_OF_4,
        proof: &[],
    };
    let to_8 = AdvanceRequest {
        log: &LOG,
        size: 8,
        root: ROOT_OF_8,
        proof: &[NODE_4_TO_8],
    };
    let advanced = keyless.advance(&to_4).is_ok() && keyless.advance(&to_8).is_ok();
    Ok(if advanced { Some(keyless) } else { None })
}

// Whether it makes the others with its key, and leaves the known journal.
fn signs_with_key(alloc: Global) -> Result<bool, Memory> {
    let Some(keyless) = advanced_without_key(alloc)? else {
        return Ok(false);
    };
    let Ok(mut cosigner) = MemCosigner::with_key(alloc, keyless) else {
        return Ok(false);
    };
    let signed = has_the_key(&cosigner) && signs_both(&mut cosigner, &mut SigBuf::new());
    Ok(is_left(&disk_after(cosigner), 3) && signed)
}

#[test]
fn an_advance_needs_no_key(rt: HostRuntime) -> Result<(), Fail> {
    assert!(rt; signs_with_key(rt.alloc())?);
    Ok(())
}

// Whether a cosigner of 32 one-time keys signs 32 times, and no more: the refusal leaves no
// signature.
fn signs_32_times(cosigner: &mut MemCosigner, out: &mut SigBuf) -> bool {
    sign_32(cosigner, out)
        && is_known(out.as_slice(), LAST_SIGNATURE)
        && sign_all(cosigner, out) == Err(CosignError::Exhausted)
        && out.as_slice().is_empty()
}

// Whether the refusal leaves the journal as it was, too.
fn is_exhausted(alloc: Global) -> Result<bool, Memory> {
    let Some(mut cosigner) = of_eight(alloc, &[])? else {
        return Ok(false);
    };
    let signed = signs_32_times(&mut cosigner, &mut SigBuf::new());
    Ok(is_known(disk_after(cosigner).bytes(), LAST_JOURNAL) && signed)
}

#[test]
fn each_one_time_key_signs_once(rt: HostRuntime) -> Result<(), Fail> {
    assert!(rt; is_exhausted(rt.alloc())?);
    Ok(())
}
