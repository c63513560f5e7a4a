//! The chains of hashes of a one-time key.

ghost use Rattle.std.specs.Prelude.{◌≡◌, ◌+◌, ◌≤◌};
ghost use Rattle.lmots_core.specs.Ots.{chain, chain_prefix, chain_step, secret_start};

use crate::fields::put;
use sha2::{Digest, Sha256};
use std::marker::Model;

// The byte that stands in the hashed string of a secret where a step has its number (RFC 8554,
// appendix A).
const SECRET: u8 = 0xFF;

// One chain of one one-time key, as the 55 bytes that each of its steps hashes: the identifier, q
// and the chain's number, which stay, and then a step's number and value, which each step
// overwrites.
#[derive(Drop)]
pub struct Chain {
    bytes: [u8; 55],
}

impl Model for Chain {
    ghost use Rattle.std.specs.Prelude.{take};
    ghost use Rattle.byte_formats.specs.Types.{Text};

    // What stays: the first 22 bytes.
    ghost Value = { Text };

    ghost view = { λ c. take 22 c.bytes };
}

impl Chain {
    // The chain of this number.
    pub fn new(id: &[u8; 16], q: u32, i: u16) -> Chain
        ensures { result ≡ chain_prefix id.now q i }
    {
        let mut bytes = [0; 55];
        put(&mut bytes, 0, id);
        put(&mut bytes, 16, &q.to_be_bytes());
        put(&mut bytes, 20, &i.to_be_bytes());
        Chain { bytes }
    }

    // The secret that it starts with.
    pub fn start(&mut self, secret: &[u8; 32]) -> [u8; 32]
        ensures same { self.new ≡ self.old }
        ensures hash { result ≡ chain_step self.old 0xFF secret.now }
    {
        self.step(SECRET, secret)
    }

    // One step, from step `j` on.
    #[tactic(auto, unfolding(crate::specs::Ots::chain_step))]
    pub fn step(&mut self, j: u8, value: &[u8; 32]) -> [u8; 32]
        ensures same { self.new ≡ self.old }
        ensures hash { result ≡ chain_step self.old j value.now }
    {
        self.bytes[22] = j;
        self.bytes[23..].copy_from_slice(value);
        Sha256::digest(&self.bytes)
    }

    // As many steps from step `from` on.
    #[tactic(auto, unfolding(crate::specs::Ots::chain))]
    pub fn run(&mut self, from: u8, count: u8, start: [u8; 32]) -> [u8; 32]
        requires { from + count ≤ 255 }
        ensures same { self.new ≡ self.old }
        ensures value { result ≡ chain self.old from count start }
    {
        let mut value = start;
        for n in 0..count {
            value = self.step(from + n, &value);
        }
        value
    }
}

/// What the secret starts chain `i` of key `q` with. Numbers above those of the chains give other
/// secrets of the key: the randomizer of its signature is that of number 65533 (RFC 8554, appendix
/// A).
#[tactic(auto, unfolding(crate::specs::Ots::chain_step, crate::specs::Ots::secret_start))]
pub fn secret_start(id: &[u8; 16], q: u32, secret: &[u8; 32], i: u16) -> [u8; 32]
    ensures { result ≡ secret_start id.now q secret.now i }
{
    Chain::new(id, q, i).start(secret)
}
