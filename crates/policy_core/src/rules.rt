//! The rules of a store.

use std::marker::Model;

/// Indices of cosigners in the list of a store, from 0. Contracts see the list of them.
#[derive(Debug, Drop)]
pub struct Indices {
    items: Vec<u32>,
}

impl Model for Indices {
    ghost use Rattle.std.specs.Prelude.{ℕ, List};

    ghost Value = { List ℕ };

    ghost view = { λ p. p.items.items };
}

impl Indices {
    ghost use Rattle.std.specs.Prelude.{◌≡◌};

    /// The indices of a vector, without a copy.
    pub fn from_vec(items: Vec<u32>) -> Indices
        ensures { result ≡ items.items }
    {
        Indices { items }
    }

    /// The indices as a vector, without a copy.
    pub fn into_vec(self) -> Vec<u32>
        ensures { result.items ≡ self }
    {
        self.items
    }

    /// The indices, in their order.
    pub fn as_slice(&self) -> &[u32]
        ensures { result.now ≡ self.now }
    {
        self.items.as_slice()
    }
}

/// A rule: so many of these cosigners have to have signed.
#[derive(Debug, Drop)]
pub struct Rule {
    pub count: u32,
    pub cosigners: Indices,
}

/// The rules of a store. Contracts see the list of them.
#[derive(Debug, Drop)]
pub struct Rules {
    items: Vec<Rule>,
}

impl Model for Rules {
    ghost use Rattle.std.specs.Prelude.{List};
    ghost use Rattle.policy_core.specs.declared.rules.Rule.{Rule};

    ghost Value = { List Rule };

    ghost view = { λ r. r.items.items };
}

impl Rules {
    ghost use Rattle.std.specs.Prelude.{◌≡◌};

    /// The rules of a vector, without a copy.
    pub fn from_vec(items: Vec<Rule>) -> Rules
        ensures { result ≡ items.items }
    {
        Rules { items }
    }

    /// The rules as a vector, without a copy.
    pub fn into_vec(self) -> Vec<Rule>
        ensures { result.items ≡ self }
    {
        self.items
    }

    /// The rules, in their order.
    pub fn as_slice(&self) -> &[Rule]
        ensures { result.now ≡ self.now }
    {
        self.items.as_slice()
    }
}
