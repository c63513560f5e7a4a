//! A hash function for tests.

ghost use Rattle.std.specs.Prelude.{◌≡◌, ◌%◌, sum};
ghost use Rattle.tree_core.specs.Toy.{toy_hash};

use crate::TreeHash;

/// A hash function for tests, whose collisions are easy to find: the sum of the bytes modulo 256,
/// and 31 bytes 0.
#[derive(Drop)]
pub struct Toy {
    sum: u8,
}

impl TreeHash for Toy {
    ghost use Rattle.std.specs.Prelude.{refl};

    ghost represents = { λ t bytes. t.sum ≡ sum bytes % 256 };

    ghost hash = { toy_hash };

    ghost sized = { λ bytes. refl };

    fn begin() -> Self {
        Toy { sum: 0 }
    }

    fn add(&mut self, piece: &[u8]) {
        let mut sum = self.sum;
        for byte in piece {
            sum = sum.wrapping_add(*byte);
        }
        self.sum = sum;
    }

    fn end(self) -> [u8; 32] {
        let mut hash = [0; 32];
        hash[0] = self.sum;
        hash
    }
}
