//! The parts of a signature of several levels, and their checks from the top down.

ghost use Rattle.std.specs.Prelude.{◌≡◌, ◌≤◌, true, length, IfSome};
ghost use Rattle.byte_formats.specs.Refusals.{answer_of};
ghost use Rattle.hss_core.specs.Hss.{prefix_length, levels_refusal, parts_fit};

use lms_core::{PUBLIC_KEY_LEN, SigError, check, prefix};

// The bytes of the LMS signature that these begin with, where they begin with one.
fn prefix_len(bytes: &[u8]) -> Option<usize>
    ensures value { result ≡ prefix_length bytes.now }
    ensures within { IfSome result (λ n. n ≤ length bytes.now) }
{
    match prefix(bytes) {
        None => None,
        Some((lms, ots)) => Some(lms.signature_len(ots)),
    }
}

// Whether the bytes are so many pairs of a signature and a public key, and one last signature.
#[tactic(auto, unfolding(crate::specs::Hss::parts_fit))]
pub fn parts_fit(count: u32, bytes: &[u8]) -> bool
    ensures { result ≡ parts_fit count bytes.now }
{
    let mut rest = bytes;
    for done in 0..count {
        let Some(length) = prefix_len(rest) else {
            return false;
        };
        if rest.len() - length < PUBLIC_KEY_LEN {
            return false;
        }
        let (_, following) = rest.split_at(length + PUBLIC_KEY_LEN);
        rest = following;
    }
    match prefix_len(rest) {
        None => false,
        Some(length) => length == rest.len(),
    }
}

// Checks the levels from the top: each signed key by the key above it, and the message by the last.
#[tactic(auto, unfolding(crate::specs::Hss::levels_refusal, crate::specs::Hss::parts_fit))]
pub fn check_levels(count: u32, key: &[u8], message: &[u8], bytes: &[u8]) -> Result<(), SigError>
    requires key { length key.now ≡ 56 }
    requires parts { parts_fit count bytes.now ≡ true }
    ensures { result ≡ answer_of (levels_refusal count key.now message.now bytes.now) }
{
    let mut key = key;
    let mut rest = bytes;
    for done in 0..count {
        let Some(length) = prefix_len(rest) else {
            return Err(SigError::BadLength);
        };
        let (signature, following) = rest.split_at(length);
        let (next, following) = following.split_at(PUBLIC_KEY_LEN);
        match check(key, next, signature) {
            Err(refusal) => return Err(refusal),
            Ok(()) => {}
        }
        key = next;
        rest = following;
    }
    check(key, message, rest)
}
