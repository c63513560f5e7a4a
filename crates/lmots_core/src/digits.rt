//! The digits of a message's hash and their checksum.

ghost use Rattle.std.specs.Prelude.{◌≡◌, ◌<◌, ◌≤◌, ◌*◌, ◌/◌, length};
ghost use Rattle.lmots_core.specs.Parameters.{steps, width};
ghost use Rattle.lmots_core.specs.Ots.{checksum, coded_hash, coef, message_hash};

use crate::fields::put;
use crate::marks::{MESSAGE_MARK, marked_hasher};
use crate::parameters::OtsType;
use sha2::Digest;

// Q: what of a message is signed.
#[tactic(auto, unfolding(crate::specs::Ots::message_hash))]
pub fn message_hash(id: &[u8; 16], q: u32, randomizer: &[u8; 32], message: &[u8]) -> [u8; 32]
    ensures { result ≡ message_hash id.now q randomizer.now message.now }
{
    let mut hasher = marked_hasher(id, q, &MESSAGE_MARK);
    hasher.update(randomizer);
    hasher.update(message);
    hasher.finalize()
}

// Digit i of a byte string, the highest bits first (RFC 8554, section 3.1.3).
pub fn coef(bytes: &[u8], i: usize, ots: OtsType) -> u8
    requires { i * width ots / 8 < length bytes.now }
    ensures value { result ≡ coef bytes.now i (width ots) }
    ensures small { result ≤ steps ots }
{
    match ots {
        OtsType::W1 => (bytes[i / 8] >> (7 - i % 8)) % 2,
        OtsType::W2 => (bytes[i / 4] >> (6 - 2 * (i % 4))) % 4,
        OtsType::W4 => (bytes[i / 2] >> (4 - 4 * (i % 2))) % 16,
        OtsType::W8 => bytes[i],
    }
}

// What the digits of a hash lack of the largest digit, in all, shifted (RFC 8554, section 4.4).
#[tactic(auto, unfolding(crate::specs::Ots::checksum_sum), using(crate::proofs::Widths::sum_fits))]
fn checksum(ots: OtsType, hash: &[u8; 32]) -> u16
    ensures { result ≡ checksum ots hash.now }
{
    let mut sum: u16 = 0;
    for i in 0..ots.hash_digits() {
        sum += (ots.steps() - coef(hash, i, ots)) as u16;
    }
    sum << ots.shift()
}

// The hash and its checksum, whose digits say how far each chain goes.
#[tactic(auto, unfolding(crate::specs::Ots::coded_hash))]
pub fn with_checksum(ots: OtsType, hash: &[u8; 32]) -> [u8; 34]
    ensures { result ≡ coded_hash ots hash.now }
{
    let mut coded = [0; 34];
    put(&mut coded, 0, hash);
    put(&mut coded, 32, &checksum(ots, hash).to_be_bytes());
    coded
}
