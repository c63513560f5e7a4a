//! What follows of every key that signs.

ghost use Rattle.std.specs.Prelude.{ℕ};
ghost use Rattle.byte_formats.specs.Types.{Text};
ghost use Rattle.lms_core.specs.declared.heights.LmsType.{LmsType};
ghost use Rattle.lms_core.specs.declared.private_key.PrivateKey.{PrivateKey};
ghost use Rattle.hss_keys.specs.Keys.{KeySignatureVerifies, SigningKey, UpperKeysSignOnce};

/// A law: what a key of one level or of two signs, with any of its one-time keys, verifies under
/// its public key.
pub fn law_key_signature_verifies()
    ensures { (k : SigningKey) (q : ℕ) (message : Text) → KeySignatureVerifies k q message }
{}

/// A law of two levels: a one-time key of the upper tree signs nothing but the public key of one
/// lower tree, whatever the messages are.
pub fn law_upper_keys_sign_once()
    ensures { (top : PrivateKey) (low : LmsType) (q p : ℕ) (message other : Text)
        → UpperKeysSignOnce top low q p message other }
{}
