//! What a key, a message and a signature are answered.

ghost use Rattle.std.specs.Prelude.{◌≡◌, ◌≤◌, length, IfSome};
ghost use Rattle.byte_formats.specs.Refusals.{answer_of};
ghost use Rattle.hss_core.specs.Hss.{hss_key_types, hss_refusal};

use crate::levels::{check_levels, parts_fit};
use lmots_core::{OtsType, read_u32};
use lms_core::{LmsType, SigError};

/// The bytes of a public key (RFC 8554, section 6.1): the number of levels and the top tree's key.
pub const PUBLIC_KEY_LEN: usize = 60;

/// The number of levels and the types of the top tree of a public key; `None` where it has not 60
/// bytes, not 1 to 8 levels, or an unknown typecode (RFC 8554, section 6.1).
#[tactic(auto, unfolding(crate::specs::Hss::hss_key_types))]
pub fn read_key(public: &[u8]) -> Option<(u32, LmsType, OtsType)>
    ensures types { result ≡ hss_key_types public.now }
    ensures within { IfSome result (λ k. (length public.now ≡ 60) × (1 ≤ k.0) × (k.0 ≤ 8)) }
{
    if public.len() != PUBLIC_KEY_LEN {
        return None;
    }
    let levels = read_u32(public, 0);
    if levels < 1 || levels > 8 {
        return None;
    }
    match lms_core::read_key(&public[4..]) {
        None => None,
        Some((lms, ots)) => Some((levels, lms, ots)),
    }
}

/// Verifies a signature of 1 to 8 levels (RFC 8554, section 6.3). It takes no memory.
///
/// # Errors
/// The first that holds: `BadKey` where `read_key` gives nothing; `BadLength` where the signature
/// is not made of whole parts, by the number of levels and the types that it names itself;
/// `TypeDiffers` where that number is not the key's. Then each level from the top: `TypeDiffers`,
/// `BadIndex`, `WrongRoot`.
#[tactic(auto, unfolding(crate::specs::Hss::hss_refusal))]
pub fn verify(public: &[u8], message: &[u8], signature: &[u8]) -> Result<(), SigError>
    ensures { result ≡ answer_of (hss_refusal public.now message.now signature.now) }
{
    let levels = match read_key(public) {
        None => return Err(SigError::BadKey),
        Some((levels, _, _)) => levels,
    };
    if signature.len() < 4 {
        return Err(SigError::BadLength);
    }
    let count = read_u32(signature, 0);
    let parts = &signature[4..];
    if !parts_fit(count, parts) {
        return Err(SigError::BadLength);
    }
    if count != levels - 1 {
        return Err(SigError::TypeDiffers);
    }
    check_levels(count, &public[4..], message, parts)
}
