//! Disks that fail, and machines that stop.

use crate::cosigners::{
    MemCosigner, disk_after, has_the_key, index_of, of_eight, open, opened, sign_all,
};
use crate::journals::{disk, left};
use crate::known::NEW;
use cosigner_core::{CosignError, CosignerOpenError};
use disk_core::MemDisk;
use hss_core::SigBuf;
use journal_core::{AppendError, OpenError};
use mtc_io::Memory;
use std::alloc::Global;
use std::test::Fail;

// Whether a disk of which this call fails is not opened.
fn is_not_opened(alloc: Global, call: u64) -> Result<bool, Memory> {
    let why = open(alloc, disk(alloc, &NEW, &[call])?).err();
    Ok(why == Some(CosignerOpenError::Open(OpenError::Failed)))
}

#[test]
fn each_call_of_an_opening_may_fail(rt: HostRuntime) -> Result<(), Fail> {
    for call in 0..4 {
        assert!(rt; is_not_opened(rt.alloc(), call)?, "call {call}");
    }
    Ok(())
}

// Signs seven times.
fn sign_seven(cosigner: &mut MemCosigner, out: &mut SigBuf) -> bool {
    for _ in 0..7 {
        if sign_all(cosigner, out).is_err() {
            return false;
        }
    }
    true
}

// The number of the next one-time key of a cosigner, where its key is the known one.
fn next_key(cosigner: &mut MemCosigner) -> Option<u32> {
    let mut out = SigBuf::new();
    if has_the_key(cosigner) && sign_all(cosigner, &mut out).is_ok() {
        index_of(out.as_slice())
    } else {
        None
    }
}

fn next_of(alloc: Global, crash_state: MemDisk) -> Option<u32> {
    next_key(&mut opened(alloc, crash_state)?)
}

// Whether an eighth signature is none, and no further one is made.
fn is_broken(cosigner: &mut MemCosigner, out: &mut SigBuf) -> bool {
    sign_all(cosigner, out) == Err(CosignError::Append(AppendError::Failed))
        && out.as_slice().is_empty()
        && sign_all(cosigner, out) == Err(CosignError::Append(AppendError::Broken))
}

// Whether each of sixteen crash states that a crash leaves has seven Sign records or eight.
fn has_seven_or_eight(alloc: Global, journal: &MemDisk) -> Result<bool, Memory> {
    for pick in 0..16 {
        if !matches!(next_of(alloc, left(journal, pick)?), Some(7 | 8)) {
            return Ok(false);
        }
    }
    Ok(true)
}

// Whether an eighth signature, in which this call of the disk fails, is none, and a crash leaves
// the seven Sign records or all eight. The calls before are four of the opening, and four of each
// append.
fn stops_soundly(alloc: Global, call: u64) -> Result<bool, Memory> {
    let Some(mut cosigner) = of_eight(alloc, &[call])? else {
        return Ok(false);
    };
    let mut out = SigBuf::new();
    let reported = sign_seven(&mut cosigner, &mut out) && is_broken(&mut cosigner, &mut out);
    Ok(has_seven_or_eight(alloc, &disk_after(cosigner))? && reported)
}

#[test]
fn no_one_time_key_signs_twice_after_a_stop(rt: HostRuntime) -> Result<(), Fail> {
    for call in 40..44 {
        assert!(rt; stops_soundly(rt.alloc(), call)?, "call {call}");
    }
    Ok(())
}
