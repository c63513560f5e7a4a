//! What a signature is answered.

ghost use Rattle.std.specs.Prelude.{◌≡◌, ◌+◌, ◌*◌, ◌<◌, ◌≤◌, ◌^◌, length, take, drop};
ghost use Rattle.byte_formats.specs.Refusals.{answer_of};
ghost use Rattle.lmots_core.specs.Strings.{u32_at};
ghost use Rattle.lms_core.specs.Heights.{height, lms_signature_length};
ghost use Rattle.lms_core.specs.Refusals.{check_refusal, key_types, level_refusal, lms_refusal};
ghost use Rattle.lms_core.specs.Refusals.{root_of_key, yields_root};

use crate::climbing::climb;
use crate::heights::LmsType;
use crate::nodes::leaf_node;
use crate::refusals::SigError;
use crate::whole::prefix;
use lmots_core::{OtsType, candidate, read_32, read_u32};

/// The bytes of a public key (RFC 8554, section 5.3): two typecodes, the identifier and the root.
pub const PUBLIC_KEY_LEN: usize = 56;

/// The types of a public key; `None` where it has not 56 bytes or a typecode is not known (RFC
/// 8554, section 5.3).
pub fn read_key(public: &[u8]) -> Option<(LmsType, OtsType)>
    ensures { result ≡ key_types public.now }
{
    if public.len() != PUBLIC_KEY_LEN {
        return None;
    }
    match LmsType::from_typecode(read_u32(public, 0)) {
        None => None,
        Some(lms) => match OtsType::from_typecode(read_u32(public, 4)) {
            None => None,
            Some(ots) => Some((lms, ots)),
        },
    }
}

// The identifier in a public key.
fn identifier(key: &[u8]) -> [u8; 16]
    requires { 24 ≤ length key.now }
    ensures { result ≡ take 16 (drop 8 key.now) }
{
    let mut id = [0; 16];
    id.copy_from_slice(&key[8..24]);
    id
}

// The root that a whole signature leads to from the candidate key of its leaf.
fn root_of_key(
    lms: LmsType,
    ots: OtsType,
    id: &[u8; 16],
    signature: &[u8],
    key: &[u8; 32],
) -> [u8; 32]
    requires whole { length signature.now ≡ lms_signature_length lms ots }
    requires index { u32_at signature.now 0 < 2 ^ height lms }
    ensures { result ≡ root_of_key lms ots id.now signature.now key.now }
{
    let place = lms.leaves() + read_u32(signature, 0);
    let leaf = leaf_node(id, place, key);
    climb(
        id,
        place,
        &signature[8 + ots.signature_len()..],
        leaf,
        lms.height(),
    )
}

// Whether a whole signature leads to this root.
#[tactic(auto, unfolding(crate::specs::Refusals::yields_root))]
fn yields_root(
    lms: LmsType,
    ots: OtsType,
    id: &[u8; 16],
    message: &[u8],
    signature: &[u8],
    root: &[u8; 32],
) -> bool
    requires whole { length signature.now ≡ lms_signature_length lms ots }
    requires index { u32_at signature.now 0 < 2 ^ height lms }
    ensures { result ≡ yields_root lms ots id.now message.now signature.now root.now }
{
    let q = read_u32(signature, 0);
    match candidate(id, q, message, &signature[4..4 + ots.signature_len()]) {
        None => false,
        Some(key) => root_of_key(lms, ots, id, signature, &key) == *root,
    }
}

// Tests a whole signature of these types.
#[tactic(auto, unfolding(crate::specs::Refusals::level_refusal))]
fn check_level(
    key: &[u8],
    message: &[u8],
    lms: LmsType,
    ots: OtsType,
    signature: &[u8],
) -> Result<(), SigError>
    requires key { length key.now ≡ 56 }
    requires whole { length signature.now ≡ lms_signature_length lms ots }
    ensures { result ≡ answer_of (level_refusal key.now message.now lms ots signature.now) }
{
    if lms.typecode() != read_u32(key, 0) || ots.typecode() != read_u32(key, 4) {
        return Err(SigError::TypeDiffers);
    }
    if read_u32(signature, 0) >= lms.leaves() {
        return Err(SigError::BadIndex);
    }
    if yields_root(
        lms,
        ots,
        &identifier(key),
        message,
        signature,
        &read_32(key, 24),
    ) {
        Ok(())
    } else {
        Err(SigError::WrongRoot)
    }
}

/// Checks a signature under a public key of 56 bytes, whose typecodes need not be known: a key that
/// another key signed is such bytes, and unknown typecodes are none of a signature's.
///
/// # Errors
/// `BadLength`, `TypeDiffers`, `BadIndex` and `WrongRoot`, the first that holds.
#[tactic(auto, unfolding(crate::specs::Refusals::check_refusal))]
pub fn check(key: &[u8], message: &[u8], signature: &[u8]) -> Result<(), SigError>
    requires { length key.now ≡ 56 }
    ensures { result ≡ answer_of (check_refusal key.now message.now signature.now) }
{
    match prefix(signature) {
        None => Err(SigError::BadLength),
        Some((lms, ots)) => {
            if lms.signature_len(ots) == signature.len() {
                check_level(key, message, lms, ots, signature)
            } else {
                Err(SigError::BadLength)
            }
        }
    }
}

/// Verifies a signature of one tree (RFC 8554, section 5.4.2, algorithm 6). It takes all heights
/// and widths, and no memory.
///
/// # Errors
/// The first that holds: `BadKey` where `read_key` gives nothing, `BadLength`, `TypeDiffers`,
/// `BadIndex`, `WrongRoot`.
#[tactic(auto, unfolding(crate::specs::Refusals::lms_refusal))]
pub fn verify(public: &[u8], message: &[u8], signature: &[u8]) -> Result<(), SigError>
    ensures { result ≡ answer_of (lms_refusal public.now message.now signature.now) }
{
    if read_key(public).is_none() {
        return Err(SigError::BadKey);
    }
    check(public, message, signature)
}
