//! The names of a request.

ghost use Rattle.std.specs.Prelude.{◌≡◌, ◌==◌, length};
ghost use Rattle.authority_core.specs.Hosts.{AreHostNames};

use mtc_io::Bytes;
use std::marker::Model;

/// Host names, at most 100. Contracts see the list of them, each as its bytes.
#[derive(Debug, Drop)]
pub struct Names {
    items: Vec<Bytes>,
}

impl Model for Names {
    ghost use Rattle.std.specs.Prelude.{ℕ, List};
    ghost use Rattle.authority_core.specs.Hosts.{AreHostNames};

    ghost Value = { List (List ℕ) };

    ghost view = { λ n. n.items.items };

    ghost invariant = { λ n. AreHostNames n.items.items };
}

impl Names {
    /// The names of a vector, without a copy.
    pub fn from_vec(items: Vec<Bytes>) -> Names
        requires { AreHostNames items.items }
        ensures { result ≡ items.items }
    {
        Names { items }
    }

    /// The names as a vector, without a copy.
    pub fn into_vec(self) -> Vec<Bytes>
        ensures { result.items ≡ self }
    {
        self.items
    }

    /// The names, in their order.
    pub fn as_slice(&self) -> &[Bytes]
        ensures value { result.now ≡ self.now }
        ensures hosts { AreHostNames self.now }
    {
        self.items.as_slice()
    }

    /// Whether there are none.
    pub fn is_empty(&self) -> bool
        ensures value { result ≡ (length self.now == 0) }
        ensures hosts { AreHostNames self.now }
    {
        self.items.is_empty()
    }
}
