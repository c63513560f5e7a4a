//! The cosigners of a store.

use hss_core::PUBLIC_KEY_LEN;
use std::marker::Model;
use tls_wire::AnchorId;

/// A store has at most so many cosigners.
pub const MOST_COSIGNERS: usize = 64;

/// A cosigner that is known: its id, and its public key, of HSS (RFC 8554, section 6.1).
#[derive(Debug, Drop)]
pub struct Known {
    pub id: AnchorId,
    pub key: [u8; PUBLIC_KEY_LEN],
}

/// The cosigners of a store, at most [`MOST_COSIGNERS`]. Contracts see the list of them.
#[derive(Debug, Drop)]
pub struct Cosigners {
    items: Vec<Known>,
}

impl Model for Cosigners {
    ghost use Rattle.std.specs.Prelude.{◌≤◌, length, List};
    ghost use Rattle.policy_core.specs.Limits.{most_cosigners};
    ghost use Rattle.policy_core.specs.declared.cosigners.Known.{Known};

    ghost Value = { List Known };

    ghost view = { λ c. c.items.items };

    ghost invariant = { λ c. length c.items.items ≤ most_cosigners };
}

impl Cosigners {
    ghost use Rattle.std.specs.Prelude.{◌≡◌, ◌≤◌, length};
    ghost use Rattle.policy_core.specs.Limits.{most_cosigners};

    /// The cosigners of a vector, without a copy.
    pub fn from_vec(items: Vec<Known>) -> Cosigners
        requires { length items.items ≤ most_cosigners }
        ensures { result ≡ items.items }
    {
        Cosigners { items }
    }

    /// The cosigners as a vector, without a copy.
    pub fn into_vec(self) -> Vec<Known>
        ensures { result.items ≡ self }
    {
        self.items
    }

    /// The cosigners, in their order.
    pub fn as_slice(&self) -> &[Known]
        ensures value { result.now ≡ self.now }
        ensures few { length self.now ≤ most_cosigners }
    {
        self.items.as_slice()
    }
}
