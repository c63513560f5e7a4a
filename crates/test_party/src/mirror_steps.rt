//! What a mirror asks of a cosigner: the mirror of eight entries and cosigner 32473.2 of their log,
//! as an implementation that stands apart has them. Journals and signatures are known by their
//! lengths and their SHA-256 hashes.

use crate::cosigners::{MemCosigner, disk_after, is_known};
use crate::journals::{changed, disk, left, no_bytes};
use crate::known::{Known, LOG, NEW, ROOT_OF_4, ROOT_OF_8};
use crate::mirrors::{
    ENTRIES, MemMirror, list_of, mirror_of, new_mirror, of_eight, open, take, wanted,
};
use cosigner_core::{AdvanceRequest, CosignError, Cosigner, KeylessCosigner};
use disk_core::MemDisk;
use hss_core::SigBuf;
use journal_core::AppendError;
use mirror_core::MirrorError;
use mirror_cosigner::{MirrorStepError, advance, cosign};
use mtc_io::{Bytes, Memory};
use std::alloc::Global;
use std::test::Fail;
use tree_core::Sha;

type Keyless = KeylessCosigner<Sha, MemDisk>;

// The journal of the cosigner that holds five entries.
const HOLDS_5: Known = (
    137,
    [
        0x3D, 0x5D, 0xB2, 0x2E, 0x84, 0x81, 0x06, 0x01, 0xA2, 0xAF, 0x39, 0xDF, 0xE3, 0xBB, 0xF2,
        0x95, 0xD0, 0x4C, 0xDB, 0x3E, 0x96, 0xB4, 0x85, 0xFD, 0xC7, 0xA8, 0x07, 0xD9, 0x14, 0x2A,
        0x9F, 0xF0,
    ],
);

// That with a Sign of the first four, and the signature.
const SIGNED: Known = (
    229,
    [
        0x99, 0x4B, 0x3B, 0x77, 0xB4, 0x34, 0x88, 0x23, 0x0A, 0xBC, 0x8F, 0x0E, 0x73, 0x74, 0x57,
        0xC0, 0x06, 0x11, 0x30, 0xE7, 0x97, 0x64, 0x7C, 0xD8, 0xFE, 0xB5, 0x86, 0x8C, 0x72, 0x2D,
        0x1A, 0x97,
    ],
);

const SIGNATURE: Known = (
    2_352,
    [
        0x53, 0xEF, 0x2D, 0xB5, 0xDB, 0xD0, 0x69, 0xA9, 0x79, 0x26, 0x6C, 0x89, 0x63, 0x62, 0xA8,
        0xD0, 0x7E, 0x41, 0xB6, 0x97, 0x6A, 0xE2, 0xAD, 0x7C, 0xCA, 0x8C, 0x5D, 0xE7, 0x97, 0xE8,
        0x36, 0xD2,
    ],
);

// The journal of the cosigner that holds 258 entries of two bytes, with a Sign of those from the
// 129th to the 256th.
const SIGNED_128: Known = (
    261,
    [
        0xA3, 0xD9, 0x60, 0x16, 0xE8, 0x82, 0x54, 0xCC, 0x5E, 0xE7, 0x55, 0xDF, 0x80, 0xE1, 0xA8,
        0x7A, 0x67, 0xA2, 0x6E, 0x89, 0xC9, 0x87, 0xB3, 0xD2, 0xA4, 0x5E, 0xFB, 0x07, 0x56, 0x1A,
        0x2C, 0x0A,
    ],
);

// The tree hash of no entries.
const EMPTY: [u8; 32] = [
    0xE3, 0xB0, 0xC4, 0x42, 0x98, 0xFC, 0x1C, 0x14, 0x9A, 0xFB, 0xF4, 0xC8, 0x99, 0x6F, 0xB9, 0x24,
    0x27, 0xAE, 0x41, 0xE4, 0x64, 0x9B, 0x93, 0x4C, 0xA4, 0x95, 0x99, 0x1B, 0x78, 0x52, 0xB8, 0x55,
];

// The cosigner in these bytes, without its key.
fn keyless(alloc: Global, bytes: &[u8]) -> Result<Option<Keyless>, Memory> {
    Ok(Keyless::open(alloc, disk(alloc, bytes, &[])?).ok())
}

// A new cosigner that a mirror had hold so many entries.
fn advanced(
    alloc: Global,
    mirror: &mut MemMirror,
    size: u64,
) -> Result<Option<MemCosigner>, Memory> {
    let Some(mut cosigner) = keyless(alloc, &NEW)? else {
        return Ok(None);
    };
    if advance(mirror, &mut cosigner, size).is_err() {
        return Ok(None);
    }
    Ok(Cosigner::with_key(alloc, cosigner).ok())
}

#[test]
fn a_cosigner_holds_the_first_entries(rt: HostRuntime) -> Result<(), Fail> {
    let mut mirror = of_eight(rt.alloc()).ok_or("refused")?;
    let mut cosigner = keyless(rt.alloc(), &NEW)?.ok_or("not opened")?;
    assert!(rt; advance(&mut mirror, &mut cosigner, 9) == Err(MirrorStepError::Beyond(8)));
    assert!(rt; advance(&mut mirror, &mut cosigner, 5) == Ok(()));
    let again = MirrorStepError::Cosign(CosignError::NotNewer(5));
    assert!(rt; advance(&mut mirror, &mut cosigner, 5) == Err(again));
    assert!(rt; is_known(cosigner.into_disk().bytes(), HOLDS_5));
    Ok(())
}

// The signature of the first four entries, where the cosigner refuses what it doesn't hold and
// what is no subtree.
fn sign_four(mirror: &mut MemMirror, cosigner: &mut MemCosigner) -> Option<SigBuf> {
    let mut out = SigBuf::new();
    let beyond = cosign(mirror, cosigner, 4, 6, &mut out) == Err(MirrorStepError::Beyond(5));
    let bad = cosign(mirror, cosigner, 1, 3, &mut out) == Err(MirrorStepError::BadSubtree);
    let signed = cosign(mirror, cosigner, 0, 4, &mut out) == Ok(());
    if beyond && bad && signed {
        Some(out)
    } else {
        None
    }
}

#[test]
fn a_cosigner_signs_what_it_holds(rt: HostRuntime) -> Result<(), Fail> {
    let mut mirror = of_eight(rt.alloc()).ok_or("refused")?;
    let mut cosigner = advanced(rt.alloc(), &mut mirror, 5)?.ok_or("not held")?;
    let out = sign_four(&mut mirror, &mut cosigner).ok_or("not signed")?;
    assert!(rt; is_known(out.as_slice(), SIGNATURE));
    assert!(rt; is_known(disk_after(cosigner).bytes(), SIGNED));
    Ok(())
}

// A cosigner that holds so many entries with the root of all eight, whatever they are.
fn holding(alloc: Global, size: u64) -> Result<Option<Keyless>, Memory> {
    let Some(mut cosigner) = keyless(alloc, &NEW)? else {
        return Ok(None);
    };
    let request = AdvanceRequest {
        log: &LOG,
        size,
        root: ROOT_OF_8,
        proof: &[],
    };
    match cosigner.advance(&request) {
        Ok(()) => Ok(Some(cosigner)),
        Err(_) => Ok(None),
    }
}

// What is not of a mirror, with the hash of the mirror's own entries.
fn not_mine(own: [u8; 32]) -> Result<(), MirrorStepError> {
    Err(MirrorStepError::NotMine {
        held: ROOT_OF_8,
        own,
    })
}

#[test]
fn what_is_not_of_the_mirror_is_refused(rt: HostRuntime) -> Result<(), Fail> {
    let mut mirror = of_eight(rt.alloc()).ok_or("refused")?;
    let mut four = holding(rt.alloc(), 4)?.ok_or("not held")?;
    assert!(rt; advance(&mut mirror, &mut four, 8) == not_mine(ROOT_OF_4));
    let mut nine = holding(rt.alloc(), 9)?.ok_or("not held")?;
    assert!(rt; advance(&mut mirror, &mut nine, 8) == not_mine(ROOT_OF_8));
    let mut none = new_mirror(rt.alloc()).ok_or("refused")?;
    assert!(rt; advance(&mut none, &mut four, 0) == not_mine(EMPTY));
    let mut keyed = Cosigner::with_key(rt.alloc(), four)
        .ok()
        .ok_or("no memory")?;
    let mut out = SigBuf::new();
    assert!(rt; cosign(&mut mirror, &mut keyed, 1, 3, &mut out) == not_mine(ROOT_OF_4));
    Ok(())
}

// Where the last byte of the log's id stands in the journal of the cosigner.
const IN_LOG: usize = 31;

#[test]
fn a_cosigner_of_another_log_takes_no_step(rt: HostRuntime) -> Result<(), Fail> {
    let mut mirror = of_eight(rt.alloc()).ok_or("refused")?;
    let other = changed(rt.alloc(), &NEW, IN_LOG, 0x03)?;
    let mut cosigner = keyless(rt.alloc(), other.as_slice())?.ok_or("not opened")?;
    let wrong = Err(MirrorStepError::Cosign(CosignError::WrongLog));
    assert!(rt; advance(&mut mirror, &mut cosigner, 5) == wrong);
    Ok(())
}

// Whether a new cosigner is given the known Sign by a mirror of 260 entries.
fn is_signed(alloc: Global, mirror: &mut MemMirror) -> Result<bool, Memory> {
    let Some(mut cosigner) = advanced(alloc, mirror, 258)? else {
        return Ok(false);
    };
    let answer = cosign(mirror, &mut cosigner, 128, 256, &mut SigBuf::new());
    Ok(answer == Ok(()) && is_known(disk_after(cosigner).bytes(), SIGNED_128))
}

#[test]
fn tiles_change_no_record(rt: HostRuntime) -> Result<(), Fail> {
    let list = list_of(rt.alloc(), 260)?;
    let mut mirror = mirror_of(rt.alloc(), list.as_slice(), 260).ok_or("refused")?;
    assert!(rt; is_signed(rt.alloc(), &mut mirror)?);
    assert!(rt; mirror.tile() == Ok(256));
    assert!(rt; is_signed(rt.alloc(), &mut mirror)?);
    let (journal, tiles) = mirror.into_disks();
    let mut again = open(rt.alloc(), journal, tiles).ok().ok_or("not opened")?;
    assert!(rt; is_signed(rt.alloc(), &mut again)?);
    Ok(())
}

// The list of the eight entries with one more of one byte.
fn nine(alloc: Global) -> Result<Bytes, Memory> {
    let mut list = Bytes::copy_of(alloc, &ENTRIES)?;
    list.append(&[0x00, 0x01, 0x70, 0x00, 0x00])?;
    Ok(list)
}

// The mirror of the eight entries over a disk of which this call fails, where the ninth entry is
// not appended then.
fn broken_at(alloc: Global, call: u64) -> Result<Option<MemMirror>, Memory> {
    let journal = disk(alloc, wanted(alloc)?.as_slice(), &[call])?;
    let Ok(mut mirror) = open(alloc, journal, no_bytes(alloc)) else {
        return Ok(None);
    };
    let list = nine(alloc)?;
    let failed = Err(MirrorError::Append(AppendError::Failed));
    if take(alloc, &mut mirror, list.as_slice()) == Some(failed) {
        Ok(Some(mirror))
    } else {
        Ok(None)
    }
}

// Whether the mirror in each of sixteen crash states has what the cosigner signed, and has it sign
// once more.
fn all_have_it(
    alloc: Global,
    journal: &MemDisk,
    cosigner: &mut MemCosigner,
) -> Result<bool, Memory> {
    for pick in 0..16 {
        let Ok(mut mirror) = open(alloc, left(journal, pick)?, no_bytes(alloc)) else {
            return Ok(false);
        };
        if cosign(&mut mirror, cosigner, 0, 8, &mut SigBuf::new()) != Ok(()) {
            return Ok(false);
        }
    }
    Ok(true)
}

// Whether a mirror of which an append failed has a cosigner hold its eight entries and no more, and
// each crash leaves a mirror that has them.
fn goes_on(alloc: Global, mut mirror: MemMirror) -> Result<bool, Memory> {
    let Some(mut cosigner) = advanced(alloc, &mut mirror, 8)? else {
        return Ok(false);
    };
    let held = cosigner.held() == (8, ROOT_OF_8);
    let (journal, _tiles) = mirror.into_disks();
    Ok(held && all_have_it(alloc, &journal, &mut cosigner)?)
}

#[test]
fn a_mirror_goes_on_after_an_append_that_failed(rt: HostRuntime) -> Result<(), Fail> {
    for call in 6..10 {
        let mirror = broken_at(rt.alloc(), call)?.ok_or("not failed")?;
        assert!(rt; goes_on(rt.alloc(), mirror)?, "call {call}");
    }
    Ok(())
}
