//! The lists of a store.

use std::marker::Model;
use tree_core::Span;

/// A subtree `[start, end)` of the log with a hash that is trusted.
#[derive(Clone, Copy, Debug, PartialEq, Eq)]
pub struct Trusted {
    pub start: u64,
    pub end: u64,
    pub hash: [u8; 32],
}

/// Trusted subtrees. Contracts see the list of them.
#[derive(Debug, Drop)]
pub struct Subtrees {
    items: Vec<Trusted>,
}

impl Model for Subtrees {
    ghost use Rattle.std.specs.Prelude.{List};
    ghost use Rattle.policy_core.specs.declared.lists.Trusted.{Trusted};

    ghost Value = { List Trusted };

    ghost view = { λ s. s.items.items };
}

impl Subtrees {
    ghost use Rattle.std.specs.Prelude.{◌≡◌};

    /// The subtrees of a vector, without a copy.
    pub fn from_vec(items: Vec<Trusted>) -> Subtrees
        ensures { result ≡ items.items }
    {
        Subtrees { items }
    }

    /// The subtrees as a vector, without a copy.
    pub fn into_vec(self) -> Vec<Trusted>
        ensures { result.items ≡ self }
    {
        self.items
    }

    /// The subtrees, in their order.
    pub fn as_slice(&self) -> &[Trusted]
        ensures { result.now ≡ self.now }
    {
        self.items.as_slice()
    }
}

/// Revoked ranges of serial numbers: those from `start` up to `end`, without `end`. Contracts see
/// the list of them.
#[derive(Debug, Drop)]
pub struct Revoked {
    items: Vec<Span>,
}

impl Model for Revoked {
    ghost use Rattle.std.specs.Prelude.{List};
    ghost use Rattle.tree_core.specs.declared.spans.Span.{Span};

    ghost Value = { List Span };

    ghost view = { λ r. r.items.items };
}

impl Revoked {
    ghost use Rattle.std.specs.Prelude.{◌≡◌};

    /// The ranges of a vector, without a copy.
    pub fn from_vec(items: Vec<Span>) -> Revoked
        ensures { result ≡ items.items }
    {
        Revoked { items }
    }

    /// The ranges as a vector, without a copy.
    pub fn into_vec(self) -> Vec<Span>
        ensures { result.items ≡ self }
    {
        self.items
    }

    /// The ranges, in their order.
    pub fn as_slice(&self) -> &[Span]
        ensures { result.now ≡ self.now }
    {
        self.items.as_slice()
    }
}
