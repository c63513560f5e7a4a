//! Two strings with one hash, found where two computations of one tree hash disagree: of a list of
//! entries and of an inclusion path, of a list and of a consistency proof, or of two lists.
//!
//! Whoever shows an inclusion path that gives the tree hash of a list, for an entry that the list
//! does not have at that index, shows two different strings with one hash. [`in_list`]
//! distinguishes the two cases; [`in_consistency`] does it for the consistency proof of a subtree
//! that checks for a list's length and tree hash, and [`two_lists`] for two lists with one tree
//! hash. Each entry is hashed once, or twice in [`in_consistency`], and apart from the two strings
//! only one hash of each level is retained.
//!
//! ```rust
//! use collide::{Finding, in_list};
//! use tree_core::Sha;
//!
//! // the path was tested: it gives the tree hash of the list's entries 4 and 5
//! match in_list::<Sha, _>(alloc, &entries, 4, 6, 5, entry, path)? {
//!     Finding::Same => println!(rt; "the list has the entry")?,
//!     Finding::Pair(first, second) => println!(rt; "two strings with one hash")?,
//! }
//! ```
#![tactic(auto)]

mod comparing;
mod consistency;
mod finding;
pub mod laws;
mod lists;
mod paths;

pub use consistency::in_consistency;
pub use finding::Finding;
pub use lists::two_lists;
pub use paths::in_list;
