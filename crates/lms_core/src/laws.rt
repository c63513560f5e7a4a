//! What follows of every tree.

ghost use Rattle.std.specs.Prelude.{◌≡◌, ℕ, ◌<◌, ◌^◌, length};
ghost use Rattle.byte_formats.specs.Types.{Text};
ghost use Rattle.lms_core.specs.Heights.{height};
ghost use Rattle.lms_core.specs.Refusals.{SignatureVerifies};

use crate::heights::LmsType;
use lmots_core::OtsType;

/// A law: what a tree signs, with any of its one-time keys, verifies under its public key.
pub fn law_signature_verifies()
    ensures { (l : LmsType) (t : OtsType) (secret message : Text) (q : ℕ) → length secret ≡ 48
        → q < 2 ^ height l → SignatureVerifies l t secret q message }
{}
