//! Public keys and signatures.

ghost use Rattle.std.specs.Prelude.{◌≡◌, ◌+◌, ◌<◌, ◌≤◌, ◌*◌, ◌++◌, length};
ghost use Rattle.lmots_core.specs.Parameters.{chains, signature_length};
ghost use Rattle.lmots_core.specs.Strings.{concatenated};
ghost use Rattle.lmots_core.specs.Ots.{chain_end, public_key, signature, signed_link};

use crate::chains::{Chain, secret_start};
use crate::digits::{coef, message_hash, with_checksum};
use crate::marks::{KEY_MARK, marked_hasher};
use crate::parameters::OtsType;
use crate::signature_buffer::SigBuf;
use sha2::Digest;

// The number of the randomizer in the derivation of secrets.
const RANDOMIZER: u16 = 65533;

// The end of chain i.
#[tactic(auto, unfolding(crate::specs::Ots::chain_step, crate::specs::Ots::secret_start))]
fn chain_end(ots: OtsType, id: &[u8; 16], q: u32, secret: &[u8; 32], i: u16) -> [u8; 32]
    ensures { result ≡ chain_end ots id.now q secret.now i }
{
    let mut chain = Chain::new(id, q, i);
    let start = chain.start(secret);
    chain.run(0, ots.steps(), start)
}

/// The public key of one-time key `q`, 32 bytes (RFC 8554, section 4.3).
#[tactic(auto, unfolding(crate::specs::Strings::concatenated))]
pub fn public(ots: OtsType, id: &[u8; 16], q: u32, secret: &[u8; 32]) -> [u8; 32]
    ensures { result ≡ public_key ots id.now q secret.now }
{
    let mut hasher = marked_hasher(id, q, &KEY_MARK);
    for i in 0..ots.chains() {
        hasher.update(&chain_end(ots, id, q, secret, i));
    }
    hasher.finalize()
}

// Chain i after as many steps as its digit says.
#[tactic(auto, unfolding(crate::specs::Ots::chain_step, crate::specs::Ots::secret_start))]
fn signed_link(
    ots: OtsType,
    id: &[u8; 16],
    q: u32,
    secret: &[u8; 32],
    coded: &[u8; 34],
    i: u16,
) -> [u8; 32]
    requires { i < chains ots }
    ensures { result ≡ signed_link ots id.now q secret.now coded.now i }
{
    let digit = coef(coded, i as usize, ots);
    let mut chain = Chain::new(id, q, i);
    let start = chain.start(secret);
    chain.run(0, digit, start)
}

// Appends each chain, as far as its digit says, to what `out` holds.
#[tactic(auto, unfolding(crate::specs::Strings::concatenated))]
fn put_links(
    ots: OtsType,
    id: &[u8; 16],
    q: u32,
    secret: &[u8; 32],
    coded: &[u8; 34],
    out: &mut SigBuf,
)
    requires { length out.old + 32 * chains ots ≤ 17748 }
    ensures bytes { let link = signed_link ots id.now q secret.now coded.now in
        out.new ≡ out.old ++ concatenated link (chains ots) }
    ensures size { length out.new ≡ length out.old + 32 * chains ots }
{
    for i in 0..ots.chains() {
        out.append(&signed_link(ots, id, q, secret, coded, i));
    }
}

/// Appends the signature of a message by one-time key `q` to what `out` holds (RFC 8554, section
/// 4.5). A key is to sign one message alone.
#[tactic(auto, unfolding(crate::specs::Ots::signature))]
pub fn sign(
    ots: OtsType,
    id: &[u8; 16],
    q: u32,
    secret: &[u8; 32],
    message: &[u8],
    out: &mut SigBuf,
)
    requires { length out.old + signature_length ots ≤ 17748 }
    ensures bytes { out.new ≡ out.old ++ signature ots id.now q secret.now message.now }
    ensures size { length out.new ≡ length out.old + signature_length ots }
{
    let randomizer = secret_start(id, q, secret, RANDOMIZER);
    let hash = message_hash(id, q, &randomizer, message);
    let coded = with_checksum(ots, &hash);
    out.append(&ots.typecode().to_be_bytes());
    out.append(&randomizer);
    put_links(ots, id, q, secret, &coded, out);
}
