//! The hashes of a path or a proof.

ghost use Rattle.std.specs.Prelude.{◌≡◌, List, [], ◌∷◌, ◌++◌, ◌<◌, ◌≤◌, length, take};
ghost use Rattle.byte_formats.specs.Types.{Hash};

use std::marker::Model;

/// The hashes of a path or a proof, in an array of a fixed size. It has capacity for 128, and a
/// proof in a tree of 64 levels has at most 65. Contracts see it as the list of its hashes.
#[derive(Drop)]
pub struct Path {
    hashes: [[u8; 32]; 128],
    length: usize,
}

impl Model for Path {
    ghost Value = { List Hash };

    ghost view = { λ p. take p.length p.hashes };

    ghost invariant = { λ p. p.length ≤ 128 };
}

impl Path {
    /// No hashes.
    pub fn new() -> Path
        ensures { result ≡ [] }
    {
        Path {
            hashes: [[0; 32]; 128],
            length: 0,
        }
    }

    /// The hashes, at most 128.
    pub fn as_slice(&self) -> &[[u8; 32]]
        ensures value { result.now ≡ self.now }
        ensures few { length result.now ≤ 128 }
    {
        &self.hashes[..self.length]
    }

    /// Removes all hashes.
    pub fn clear(&mut self)
        ensures { self.new ≡ [] }
    {
        self.length = 0;
    }

    /// Appends a hash to fewer than 128.
    pub fn push(&mut self, hash: &[u8; 32])
        requires { length self.old < 128 }
        ensures { self.new ≡ self.old ++ hash.now ∷ [] }
    {
        self.hashes[self.length] = *hash;
        self.length += 1;
    }
}
