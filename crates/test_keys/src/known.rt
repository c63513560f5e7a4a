//! Signatures of two levels that another program has made.

ghost use Rattle.std.specs.Prelude.{◌<◌};

use hex::FromHex;
use hss_core::{PUBLIC_KEY_LEN, verify};
use hss_keys::HssKey;
use lmots_core::{OtsType, SigBuf};
use lms_core::{LmsType, SECRET_LEN, Secret};
use mtc_io::Memory;
use sha2::{Digest, Sha256};
use std::alloc::Global;
use std::test::Fail;

/// The secret of these keys: the bytes 0 to 47.
pub(crate) fn secret() -> Option<Secret> {
    let mut bytes = [0; SECRET_LEN];
    for place in 0..SECRET_LEN {
        bytes[place] = place as u8;
    }
    Secret::from_slice(&bytes)
}

/// What they sign.
pub(crate) const MESSAGE: [u8; 7] = *b"message";

// The first and the last one-time key of lower tree 0, the first of lower tree 1, and the last one.
const NUMBERS: [u32; 4] = [0, 31, 32, 1_023];

// A public key, the length of the signatures, and the SHA-256 of those by one-time keys 0, 31, 32
// and 1,023. Both trees have height 5.
struct Known {
    ots: OtsType,
    root: &'static str,
    length: usize,
    signatures: [&'static str; 4],
}

const OF_WIDTH_1: Known = Known {
    ots: OtsType::W1,
    root: "a8664067560a77f7c00d2a0bed57b441c83745aef846c2f262f81941b396e652",
    length: 17_428,
    signatures: [
        "e413ade1b818ca05630a9ffa272b6858925aef35253b274d5e3f885b7ee3c6b3",
        "4d39d02d5bbf2785beee19a24ce94310b28f04d7293898195cbdb5930e272c12",
        "9477e3cab2ddf496e880761a60ce548288ccda1ea58da2dfe8e96af0db2126fd",
        "52f6f62dda9bd802aeb7268635d11235c8132e552f85bd513c36f1d967e09ef0",
    ],
};

const OF_WIDTH_2: Known = Known {
    ots: OtsType::W2,
    root: "2a4828152be09e6b4523a19a98afecfde2f1cf40f87deaf39f714b7303554be0",
    length: 8_980,
    signatures: [
        "02f9442a34699f619c45f6f34c657b6eaf455b0dda3c44d8b745f1f60c874da8",
        "2f8afebc606a56e90ff7e222dfd8bca7e0a670301c2fc6f7a9a25e94d30883b0",
        "1c07e651fa2f79d7655eb1db43b90423ef0af6a65d38715d8c2b5b8c90b1b2cd",
        "2564fff96cdccb5e8499c85613afdd168b8c394281ecaa3b7a278229c71a96dd",
    ],
};

const OF_WIDTH_4: Known = Known {
    ots: OtsType::W4,
    root: "661aeb1d85e6a993e0e55bbbad2564f1b45e3e1ba8b9b4c917e993ebbdaf19e2",
    length: 4_756,
    signatures: [
        "bc468f4c19e42662576acb2d335eee23cad8aeeaf92e7afa171312e1a87d29e9",
        "2e893916be10dd28d427d060e38b9235c903ba7ae83d8170c8984ac275b2f828",
        "494a95b528329a7e08257686435722514e8b7b02695140a9bd0af6c312dfaa38",
        "8e331364282b1cd99e75d9c5f60fac9ac83dab44303bfad911b3222bdf5ba591",
    ],
};

const OF_WIDTH_8: Known = Known {
    ots: OtsType::W8,
    root: "de9c568efec826384bf0e97a186a46fb7a40bdf45b7ec32ca0703d17c7d469f9",
    length: 2_644,
    signatures: [
        "3cd9caa0c164b7fa8c56734c1d0186c2570524bb66148f3be5338c00f475d9f3",
        "053c91e3a01c0363a0af1ff3f2832f0fde2643cde2b0d5b3ca54b3cbdb158fb2",
        "7b28de31301903ab902f98f0ec0de971b888ced3b7fe3f5cd0823b7d26993f8f",
        "781ab55366731588356b8efc252588b81f442827f4ac3a32904c8c3e5cda6d91",
    ],
};

// The key of which one-time key `next` is in the newest lower tree.
fn key_at(alloc: Global, ots: OtsType, next: u32) -> Result<Option<HssKey>, Memory>
    requires { next < 1024 }
{
    let Some(secret) = secret() else {
        return Ok(None);
    };
    let low = Some(LmsType::H5);
    let key = HssKey::make(alloc, LmsType::H5, low, ots, &secret, next / 32 + 1, next)?;
    Ok(Some(key))
}

// The public key and a signature by one-time key `next`, which verifies.
fn signed(
    alloc: Global,
    ots: OtsType,
    next: u32,
    out: &mut SigBuf,
) -> Result<Option<[u8; PUBLIC_KEY_LEN]>, Memory> {
    if next >= 1_024 {
        return Ok(None);
    }
    let Some(mut key) = key_at(alloc, ots, next)? else {
        return Ok(None);
    };
    if key.left() == 0 {
        return Ok(None);
    }
    key.sign(&MESSAGE, out);
    let public = key.public();
    match verify(&public, &MESSAGE, out.as_slice()) {
        Ok(()) => Ok(Some(public)),
        Err(_) => Ok(None),
    }
}

fn is_digest(digits: &str, bytes: &[u8]) -> bool {
    match <[u8; 32] as FromHex>::from_hex(digits) {
        Ok(known) => known == Sha256::digest(bytes),
        Err(_) => false,
    }
}

fn is_root(digits: &str, public: &[u8; PUBLIC_KEY_LEN]) -> bool {
    match <[u8; 32] as FromHex>::from_hex(digits) {
        Ok(known) => known.as_slice() == &public[28..] && public[..4] == [0, 0, 0, 2],
        Err(_) => false,
    }
}

// Whether the signature by the one-time key with this place in the list is the known one.
fn is_known(alloc: Global, known: &Known, place: usize) -> Result<bool, Memory> {
    let (Some(number), Some(digits)) = (NUMBERS.get(place), known.signatures.get(place)) else {
        return Ok(false);
    };
    let mut out = SigBuf::new();
    match signed(alloc, known.ots, *number, &mut out)? {
        Some(public) => Ok(
            out.as_slice().len() == known.length
                && is_digest(digits, out.as_slice())
                && is_root(known.root, &public),
        ),
        None => Ok(false),
    }
}

fn are_known(alloc: Global, known: &Known) -> Result<bool, Memory> {
    for place in 0..4usize {
        if !is_known(alloc, known, place)? {
            return Ok(false);
        }
    }
    Ok(true)
}

#[test]
fn signatures_of_two_levels_are_those_of_another_program(rt: HostRuntime) -> Result<(), Fail> {
    assert!(rt; are_known(rt.alloc(), &OF_WIDTH_1)?);
    assert!(rt; are_known(rt.alloc(), &OF_WIDTH_2)?);
    assert!(rt; are_known(rt.alloc(), &OF_WIDTH_4)?);
    assert!(rt; are_known(rt.alloc(), &OF_WIDTH_8)?);
    Ok(())
}
