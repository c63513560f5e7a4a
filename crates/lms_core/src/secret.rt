//! What a private key is made of.

ghost use Rattle.std.specs.Prelude.{◌≡◌, length};
ghost use Rattle.std.specs.Option.{SomeIff};

use std::marker::Model;

/// The bytes of a secret: 16 of identifier and 32 of seed.
pub const SECRET_LEN: usize = 48;

/// The secret of a private key. It moves: the type has no copy, comparison or print, and
/// [`Secret::as_bytes`] alone gives its bytes. Contracts see these.
#[derive(Drop)]
pub struct Secret {
    bytes: [u8; SECRET_LEN],
}

impl Model for Secret {
    ghost use Rattle.byte_formats.specs.Types.{Text};

    ghost Value = { Text };

    ghost view = { λ s. s.bytes };
}

impl Secret {
    /// The secret of these bytes; `None` where they are not 48.
    pub fn from_slice(bytes: &[u8]) -> Option<Secret>
        ensures { SomeIff result (length bytes.now ≡ 48) bytes.now }
    {
        match <[u8; SECRET_LEN]>::try_from(bytes) {
            Ok(bytes) => Some(Secret { bytes }),
            Err(_) => None,
        }
    }

    /// Its bytes, from which alone the one-time keys are made.
    pub fn as_bytes(&self) -> &[u8; SECRET_LEN]
        ensures value { result.now ≡ self.now }
        ensures size { length self.now ≡ 48 }
    {
        &self.bytes
    }
}
