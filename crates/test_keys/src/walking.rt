//! Keys from their first one-time key on.

use crate::known::{MESSAGE, secret};
use hss_core::verify;
use hss_keys::HssKey;
use lmots_core::{OtsType, SigBuf};
use lms_core::{LmsType, Tree};
use mtc_io::Memory;
use std::alloc::Global;
use std::test::Fail;

// A key of two trees of height 5 that has no lower tree yet.
fn new_key(alloc: Global) -> Result<Option<HssKey>, Memory> {
    let Some(secret) = secret() else {
        return Ok(None);
    };
    let low = Some(LmsType::H5);
    let key = HssKey::make(alloc, LmsType::H5, low, OtsType::W4, &secret, 0, 0)?;
    Ok(Some(key))
}

// A key that has all its lower trees, and one one-time key left.
fn last_key(alloc: Global) -> Result<Option<HssKey>, Memory> {
    let Some(secret) = secret() else {
        return Ok(None);
    };
    let low = Some(LmsType::H5);
    let key = HssKey::make(alloc, LmsType::H5, low, OtsType::W4, &secret, 32, 1_023)?;
    Ok(Some(key))
}

// Makes the next lower tree, if the one before it is used up and there may be one more.
fn next_tree(alloc: Global, key: &mut HssKey) -> Result<bool, Memory> {
    if key.left() != 0 || key.children_left() == 0 {
        return Ok(false);
    }
    let lower = key.prepare(alloc)?;
    key.adopt(lower);
    Ok(true)
}

// Signs with the next one-time key, if one is left: whether the signature verifies.
fn sign_next(key: &mut HssKey) -> bool {
    if key.left() == 0 {
        return false;
    }
    let mut out = SigBuf::new();
    key.sign(&MESSAGE, &mut out);
    verify(&key.public(), &MESSAGE, out.as_slice()).is_ok()
}

// Signs with so many one-time keys at most, and answers how many signatures verify.
fn sign_many(key: &mut HssKey, most: u32) -> u32 {
    let mut good = 0;
    for _ in 0..most {
        if sign_next(key) && good < most {
            good += 1;
        }
    }
    good
}

// What is made and signed of two lower trees, one after the other.
fn two_trees(alloc: Global) -> Result<Option<(bool, bool, u32, bool, u32, u32)>, Memory> {
    let Some(mut key) = new_key(alloc)? else {
        return Ok(None);
    };
    let none = !sign_next(&mut key) && next_tree(alloc, &mut key)?;
    let early = next_tree(alloc, &mut key)?;
    let first = sign_many(&mut key, 40);
    let second = next_tree(alloc, &mut key)?;
    let more = sign_many(&mut key, 2);
    Ok(Some((none, early, first, second, more, key.next())))
}

// What is left of a key at its end.
fn last_tree(alloc: Global) -> Result<Option<(u32, bool, u32, u32)>, Memory> {
    let Some(mut key) = last_key(alloc)? else {
        return Ok(None);
    };
    let signed = sign_many(&mut key, 2);
    let more = next_tree(alloc, &mut key)?;
    Ok(Some((signed, more, key.children(), key.next())))
}

// Whether a key of one level signs with its eighth one-time key as its tree does, after the number
// of levels below the top, which is 0.
fn as_one_tree(alloc: Global) -> Result<bool, Memory> {
    let Some(secret) = secret() else {
        return Ok(false);
    };
    let tree = Tree::make(alloc, LmsType::H5, OtsType::W4, &secret)?;
    let mut key = HssKey::make(alloc, LmsType::H5, None, OtsType::W4, &secret, 0, 7)?;
    let (mut wanted, mut made) = (SigBuf::new(), SigBuf::new());
    wanted.append(&[0; 4]);
    tree.sign(7, &MESSAGE, &mut wanted);
    key.sign(&MESSAGE, &mut made);
    let public = key.public();
    let same_key = public.starts_with(&[0, 0, 0, 1]) && public.ends_with(&tree.public());
    Ok(same_key && made.as_slice() == wanted.as_slice() && key.left() == 24)
}

#[test]
fn lower_trees_follow_one_another(rt: HostRuntime) -> Result<(), Fail> {
    assert!(rt; two_trees(rt.alloc())? == Some((true, false, 32, true, 2, 34)));
    assert!(rt; last_tree(rt.alloc())? == Some((1, false, 32, 1_024)));
    Ok(())
}

#[test]
fn a_key_of_one_level_signs_as_its_tree(rt: HostRuntime) -> Result<(), Fail> {
    assert!(rt; as_one_tree(rt.alloc())?);
    Ok(())
}
