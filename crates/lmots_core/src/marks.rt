//! How a hash begins that is no step of a chain.

ghost use Rattle.std.specs.Prelude.{◌++◌};
ghost use Rattle.std.specs.Int.{w32, to_be_bytes};
ghost use Rattle.sha2.specs.Hashers.{Holds256};

use sha2::{Digest, Sha256};

// D_PBLC: the mark of the hash that is a one-time public key (RFC 8554, section 4.3).
pub const KEY_MARK: [u8; 2] = [0x80, 0x80];

// D_MESG: the mark of the hash of a message (RFC 8554, section 4.5).
pub const MESSAGE_MARK: [u8; 2] = [0x81, 0x81];

/// A hasher that holds what each hash begins with but a chain's: the identifier, the number of a
/// one-time key or a node, and the two bytes that separate one use from another.
pub fn marked_hasher(id: &[u8; 16], number: u32, mark: &[u8; 2]) -> Sha256
    ensures { Holds256 result (id.now ++ to_be_bytes w32 number ++ mark.now) }
{
    let mut hasher = Sha256::new();
    hasher.update(id);
    hasher.update(&number.to_be_bytes());
    hasher.update(mark);
    hasher
}
