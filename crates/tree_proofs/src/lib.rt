//! Proofs over Merkle trees, made and checked: inclusion paths of entries (RFC 9162, section 2.1.3)
//! and consistency proofs of subtrees, as the draft on Merkle Tree Certificates defines them.
//!
//! A hash is 32 bytes. An interval `[start, end)` holds the entries from `start` up to `end`,
//! without `end`. Proofs are made over [`Nodes`], which give the hash of any full subtree of a list
//! and may fail; contracts see the leaf hashes of the list where the model knows them. No call
//! takes memory but [`Listed::push`] and [`Listed::reserve`].
//!
//! ```rust
//! use tree_core::Sha;
//! use tree_proofs::{Path, check, consist, party_of};
//!
//! // the proof that the first four entries of eight are still there
//! let mut proof = Path::new();
//! consist(nodes, 0, 4, 8, &mut proof)?;
//! let subtree = party_of(nodes, 0, 4)?;
//! let root = party_of(nodes, 0, 8)?;
//! check::<Sha>(0, 4, 8, &subtree, &root, proof.as_slice())?;
//! ```
#![tactic(auto)]

mod checking;
mod checkpoint;
mod consistency;
mod entry;
mod error;
mod hashes;
mod inclusion;
pub mod laws;
mod leaves;
mod nodes;
mod opening;
mod outcome;
mod paths;
mod tree;

pub use checking::check;
pub use checkpoint::Checkpoint;
pub use consistency::consist;
pub use entry::{AsEntry, EntryList};
pub use error::ConsistError;
pub use hashes::Hashes;
pub use inclusion::include;
pub use leaves::Listed;
pub use nodes::{Nodes, node_of};
pub use opening::opened;
pub use outcome::Opened;
pub use paths::Path;
pub use tree::{halves, list_hash, part_between, root, split};
