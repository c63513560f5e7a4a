//! The tree hash of a list that grows (RFC 9162, section 2.1), from at most 64 hashes instead of
//! all its nodes: its peaks, the roots of the full trees of which its tree is made.
//!
//! A hash is 32 bytes. A list of `n` entries has as many peaks as `n` has ones in binary, the
//! largest first. Contracts see leaf hashes, and a state as a size and its peaks. No call takes
//! memory.
//!
//! ```rust
//! use tree_core::{Sha, leaf};
//! use tree_peaks::Peaks;
//!
//! // the tree hash of a list of two entries
//! let mut peaks: Peaks<Sha> = Peaks::new();
//! peaks.push(&leaf::<Sha>(b"zero"));
//! peaks.push(&leaf::<Sha>(b"one"));
//! let root = peaks.root();
//! ```
//!
//! No clause says what a call costs: a push hashes one pair for each peak that it joins, a root one
//! pair for each peak but the last.
#![tactic(auto)]

mod carrying;
mod folding;
mod growing;
pub mod laws;

pub use folding::root_of_peaks;
pub use growing::Peaks;
