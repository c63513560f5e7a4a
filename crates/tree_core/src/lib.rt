//! Merkle tree hashing: the hash function of a tree, the hashes of leaves and of pairs and what
//! an inclusion path evaluates to, as RFC 9162 (section 2.1) defines them, and which intervals of
//! a list of entries are subtrees and which subtrees cover an interval, as the draft on Merkle
//! Tree Certificates defines it.
//!
//! A hash is 32 bytes. An interval `[start, end)` holds the entries from `start` up to `end`,
//! without `end`. Contracts see hashes and entries as lists of bytes, and name the function of a
//! tree by its meaning, `H.hash`. No call takes memory.
//!
//! ```rust
//! use tree_core::{evaluate, leaf, Sha};
//!
//! // the entry 1 of a list of two, with the hash of entry 0 as its path
//! let sibling = leaf::<Sha>(b"zero");
//! let root = evaluate::<Sha>(&leaf::<Sha>(b"one"), 1, 0, 2, &[sibling])?;
//! ```
#![tactic(auto)]

mod covering;
mod error;
mod hashing;
mod inclusion;
pub mod laws;
mod sha256;
mod spans;
mod subtree;
mod sum;

pub use covering::cover;
pub use error::EvalError;
pub use hashing::{LEAF, PAIR, TreeHash, leaf, pair};
pub use inclusion::evaluate;
pub use sha256::Sha;
pub use spans::{Cover, Span};
pub use subtree::subtree_ok;
pub use sum::Toy;
