//! What follows of every key.

ghost use Rattle.std.specs.Prelude.{◌≡◌, ℕ, ◌<◌, ◌^◌, length};
ghost use Rattle.byte_formats.specs.Types.{Text};
ghost use Rattle.lms_core.specs.Heights.{height};
ghost use Rattle.lms_core.specs.Trees.{private_key};
ghost use Rattle.hss_core.specs.Hss.{OneLevelSignatureVerifies, SignedKeyVerifies};

use lmots_core::OtsType;
use lms_core::LmsType;

/// A law: what a key of one level signs, with any of its one-time keys, verifies under its public
/// key.
pub fn law_signature_verifies()
    ensures { (l : LmsType) (t : OtsType) (secret message : Text) (q : ℕ) → length secret ≡ 48
        → q < 2 ^ height l → OneLevelSignatureVerifies l t secret q message }
{}

/// A law over the levels: a key that a tree signs, and what verifies under that key, verify
/// together under the tree's key, with one level more. At most 8 levels are.
pub fn law_signed_key_verifies()
    ensures { (l : LmsType) (t : OtsType) (secret public message parts : Text) (q below : ℕ)
        → length secret ≡ 48 → q < 2 ^ height l → below < 7
        → SignedKeyVerifies (private_key l t secret) q below public message parts }
{}
