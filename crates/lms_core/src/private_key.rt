//! The private key of a tree.

ghost use Rattle.std.specs.Prelude.{◌≡◌};
ghost use Rattle.lms_core.specs.Trees.{private_key};

use crate::heights::LmsType;
use crate::secret::Secret;
use lmots_core::{OtsType, read_32};

/// The private key of a tree (RFC 8554, section 5.2), without the number of the next one-time key.
/// It moves, as the secret does that it is made of.
#[derive(Drop)]
pub struct PrivateKey {
    // The height.
    pub(crate) lms: LmsType,
    // The width of the one-time keys.
    pub(crate) ots: OtsType,
    // The identifier, `I`.
    pub(crate) id: [u8; 16],
    // The seed, from which the one-time keys are derived (RFC 8554, appendix A).
    pub(crate) seed: [u8; 32],
}

impl PrivateKey {
    /// The private key of a secret: 16 bytes of identifier and 32 of seed.
    pub fn of_secret(lms: LmsType, ots: OtsType, secret: &Secret) -> PrivateKey
        ensures { result ≡ private_key lms ots secret.now }
    {
        let bytes = secret.as_bytes();
        let mut id = [0; 16];
        id.copy_from_slice(&bytes[..16]);
        PrivateKey {
            lms,
            ots,
            id,
            seed: read_32(bytes, 16),
        }
    }
}
