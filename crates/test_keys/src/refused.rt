//! What `verify` answers to a signature of one tree of height 5 and width 4, and to changes of it
//! and of the key.

use crate::known::{MESSAGE, secret};
use hss_core::{PUBLIC_KEY_LEN, SigError, verify};
use hss_keys::HssKey;
use lmots_core::{OtsType, SigBuf};
use lms_core::LmsType;
use mtc_io::Memory;
use std::alloc::Global;
use std::test::Fail;

// The public key, and the signature of the message by the first one-time key.
fn signed(alloc: Global, out: &mut SigBuf) -> Result<Option<[u8; PUBLIC_KEY_LEN]>, Memory> {
    let Some(secret) = secret() else {
        return Ok(None);
    };
    let mut key = HssKey::make(alloc, LmsType::H5, None, OtsType::W4, &secret, 0, 0)?;
    if key.left() == 0 {
        return Ok(None);
    }
    key.sign(&MESSAGE, out);
    Ok(Some(key.public()))
}

// The key with another number of levels, which is in its first four bytes.
fn with_levels(public: &[u8; PUBLIC_KEY_LEN], levels: u8) -> [u8; PUBLIC_KEY_LEN] {
    let mut changed = *public;
    changed[3] = levels;
    changed
}

// The signature with another number of its one-time key, which follows the number of levels.
fn with_number(alloc: Global, signature: &[u8], number: u8) -> Result<Vec<u8>, Memory> {
    let mut changed = Vec::new(alloc);
    changed.extend_from_slice(signature)?;
    if let Some(byte) = changed.get_mut(7) {
        *byte = number;
    }
    Ok(changed)
}

#[test]
fn changed_signatures_are_refused(rt: HostRuntime) -> Result<(), Fail> {
    let alloc = rt.alloc();
    let mut out = SigBuf::new();
    let public = signed(alloc, &mut out)?.unwrap_or([0; PUBLIC_KEY_LEN]);
    let signature = out.as_slice();
    let cut = signature.get(..2_351).unwrap_or(&[]);
    let short = public.as_slice().get(..59).unwrap_or(&[]);
    assert!(rt; signature.len() == 2_352);
    assert!(rt; verify(&public, &MESSAGE, signature) == Ok(()));
    assert!(rt; verify(&public, &MESSAGE, cut) == Err(SigError::BadLength));
    assert!(rt; verify(short, &MESSAGE, signature) == Err(SigError::BadKey));
    let nine = with_levels(&public, 9);
    assert!(rt; verify(&nine, &MESSAGE, signature) == Err(SigError::BadKey));
    let two = with_levels(&public, 2);
    assert!(rt; verify(&two, &MESSAGE, signature) == Err(SigError::TypeDiffers));
    let beyond = with_number(alloc, signature, 32)?;
    assert!(rt; verify(&public, &MESSAGE, beyond.as_slice()) == Err(SigError::BadIndex));
    assert!(rt; verify(&public, b"another", signature) == Err(SigError::WrongRoot));
    Ok(())
}
