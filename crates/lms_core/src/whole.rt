//! The signature that bytes begin with.

ghost use Rattle.std.specs.Prelude.{◌≡◌, ◌≤◌, length, IfSome, Some};
ghost use Rattle.lms_core.specs.Heights.{lms_signature_length};
ghost use Rattle.lms_core.specs.Refusals.{prefix_types, prefix_with};

use crate::heights::LmsType;
use lmots_core::{OtsType, read_u32};

// The types of the signature that the bytes begin with, where its one-time type is this one.
fn prefix_with(ots: OtsType, bytes: &[u8]) -> Option<(LmsType, OtsType)>
    requires { 8 ≤ length bytes.now }
    ensures types { result ≡ prefix_with (Some ots) bytes.now }
    ensures within { IfSome result (λ k. lms_signature_length k.0 k.1 ≤ length bytes.now) }
{
    if bytes.len() < 8 + ots.signature_len() {
        return None;
    }
    match LmsType::from_typecode(read_u32(bytes, 4 + ots.signature_len())) {
        None => None,
        Some(lms) => {
            if bytes.len() < lms.signature_len(ots) {
                None
            } else {
                Some((lms, ots))
            }
        }
    }
}

/// The types of the signature that the bytes begin with, by its own typecodes; `None` where they
/// begin with no whole signature. The bytes after it are not read.
#[tactic(auto, unfolding(crate::specs::Refusals::prefix_types))]
pub fn prefix(bytes: &[u8]) -> Option<(LmsType, OtsType)>
    ensures types { result ≡ prefix_types bytes.now }
    ensures within { IfSome result (λ k. lms_signature_length k.0 k.1 ≤ length bytes.now) }
{
    if bytes.len() < 8 {
        return None;
    }
    match OtsType::from_typecode(read_u32(bytes, 4)) {
        None => None,
        Some(ots) => prefix_with(ots, bytes),
    }
}
