//! The nodes of a Merkle tree, retained as the tree grows: the hash of each full subtree is made
//! once, when its last leaf comes, and then looked up.
//!
//! A hash is 32 bytes. Contracts see the leaf hashes and a number of spare leaves. No call takes
//! memory but [`Cache::push`] and [`Cache::reserve`], and a push within what was reserved takes
//! none.
//!
//! ```rust
//! use tree_cache::Cache;
//! use tree_core::{Sha, leaf};
//! use tree_proofs::{Path, include};
//!
//! // the inclusion path of the first of two entries
//! let mut cache: Cache<Sha> = Cache::new(alloc);
//! cache.push(&leaf::<Sha>(b"zero"))?;
//! cache.push(&leaf::<Sha>(b"one"))?;
//! let mut path = Path::new();
//! include(&mut cache, 0, 0, 2, &mut path)?;
//! ```
#![tactic(auto)]

mod cache;
mod kept;
mod row;
mod rows;

pub use cache::Cache;
pub use kept::Rows;
