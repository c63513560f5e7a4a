//! SHA-256 as the hash function of a tree.

ghost use Rattle.sha2.specs.Sha256.{sha256};

use crate::TreeHash;
use sha2::{Digest, Sha256};

/// SHA-256 (FIPS 180-4), the hash function of every tree of this program.
#[derive(Drop)]
pub struct Sha {
    running: Sha256,
}

impl TreeHash for Sha {
    ghost use Rattle.sha2.proofs.Facts256.{length-sha256};

    ghost represents = { λ s bytes. ⟦<Sha256 as Digest>⟧.holds s.running bytes };

    ghost hash = { sha256 };

    ghost sized = { length-sha256 };

    fn begin() -> Self {
        Sha {
            running: Sha256::new(),
        }
    }

    fn add(&mut self, piece: &[u8]) {
        self.running.update(piece);
    }

    fn end(self) -> [u8; 32] {
        self.running.finalize()
    }
}
