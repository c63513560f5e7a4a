//! What follows of every one-time key.

ghost use Rattle.std.specs.Prelude.{ℕ};
ghost use Rattle.byte_formats.specs.Types.{Text};
ghost use Rattle.lmots_core.specs.Ots.{SignatureYieldsKey};

use crate::parameters::OtsType;

/// A law: whatever the secret, a signature leads back to the public key of the key that made it.
pub fn law_signature_yields_key()
    ensures { (t : OtsType) (id seed message : Text) (q : ℕ)
        → SignatureYieldsKey t id q seed message }
{}
