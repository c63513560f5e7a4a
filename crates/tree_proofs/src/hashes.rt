//! A list of hashes.

use std::marker::Model;

/// The hashes of a proof. Contracts see the list of them.
#[derive(Debug, Drop)]
pub struct Hashes {
    items: Vec<[u8; 32]>,
}

impl Model for Hashes {
    ghost use Rattle.std.specs.Prelude.{List, ℕ};

    ghost Value = { List (List ℕ) };

    ghost view = { λ h. h.items.items };
}

impl Hashes {
    ghost use Rattle.std.specs.Prelude.{◌≡◌};

    /// The hashes of a vector, without a copy.
    pub fn from_vec(items: Vec<[u8; 32]>) -> Hashes
        ensures { result ≡ items.items }
    {
        Hashes { items }
    }

    /// The hashes as a vector, without a copy.
    pub fn into_vec(self) -> Vec<[u8; 32]>
        ensures { result.items ≡ self }
    {
        self.items
    }

    /// The hashes, in their order.
    pub fn as_slice(&self) -> &[[u8; 32]]
        ensures { result.now ≡ self.now }
    {
        self.items.as_slice()
    }
}
