//! The key that a signature leads to.

ghost use Rattle.std.specs.Prelude.{◌≡◌, ◌<◌, length};
ghost use Rattle.lmots_core.specs.Parameters.{chains, signature_length};
ghost use Rattle.lmots_core.specs.Strings.{concatenated};
ghost use Rattle.lmots_core.specs.Ots.{key_of_ends, candidate_key, candidate_of, finished_link};

use crate::chains::Chain;
use crate::digits::{coef, message_hash, with_checksum};
use crate::fields::{read_32, read_u32};
use crate::marks::{KEY_MARK, marked_hasher};
use crate::parameters::{LINKS, OtsType};
use sha2::Digest;

// The end of chain i, from its value in the signature.
fn finished_link(
    ots: OtsType,
    id: &[u8; 16],
    q: u32,
    coded: &[u8; 34],
    signature: &[u8],
    i: u16,
) -> [u8; 32]
    requires chain { i < chains ots }
    requires whole { length signature.now ≡ signature_length ots }
    ensures { result ≡ finished_link ots id.now q coded.now signature.now i }
{
    let digit = coef(coded, i as usize, ots);
    let value = read_32(signature, LINKS + 32 * i as usize);
    Chain::new(id, q, i).run(digit, ots.steps() - digit, value)
}

// The key whose chains end where those of the signature end.
#[tactic(auto, unfolding(crate::specs::Ots::key_of_ends, crate::specs::Strings::concatenated))]
fn key_of_links(ots: OtsType, id: &[u8; 16], q: u32, coded: &[u8; 34], signature: &[u8]) -> [u8; 32]
    requires { length signature.now ≡ signature_length ots }
    ensures { let link = finished_link ots id.now q coded.now signature.now in
        result ≡ key_of_ends id.now q (concatenated link (chains ots)) }
{
    let mut hasher = marked_hasher(id, q, &KEY_MARK);
    for i in 0..ots.chains() {
        hasher.update(&finished_link(ots, id, q, coded, signature, i));
    }
    hasher.finalize()
}

// The candidate key of a whole signature.
#[tactic(auto, unfolding(crate::specs::Ots::candidate_of))]
fn candidate_of(ots: OtsType, id: &[u8; 16], q: u32, message: &[u8], signature: &[u8]) -> [u8; 32]
    requires { length signature.now ≡ signature_length ots }
    ensures { result ≡ candidate_of ots id.now q message.now signature.now }
{
    let randomizer = read_32(signature, 4);
    let hash = message_hash(id, q, &randomizer, message);
    key_of_links(ots, id, q, &with_checksum(ots, &hash), signature)
}

/// The public key that the signature of a message by one-time key `q` leads to, whatever it is: a
/// signature is good where this is the key (RFC 8554, section 4.6, algorithm 4b). `None` for fewer
/// than 4 bytes, an unknown typecode, and another length than that of the typecode.
#[tactic(auto, unfolding(crate::specs::Ots::candidate_key))]
pub fn candidate(id: &[u8; 16], q: u32, message: &[u8], signature: &[u8]) -> Option<[u8; 32]>
    ensures { result ≡ candidate_key id.now q message.now signature.now }
{
    if signature.len() < 4 {
        return None;
    }
    match OtsType::from_typecode(read_u32(signature, 0)) {
        None => None,
        Some(ots) => {
            if signature.len() == ots.signature_len() {
                Some(candidate_of(ots, id, q, message, signature))
            } else {
                None
            }
        }
    }
}
