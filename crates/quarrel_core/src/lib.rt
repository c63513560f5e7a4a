//! Two strings with one hash from the steps of one cosigner alone: it signed one subtree with two
//! hashes, and no list of entries is needed to show it.
//!
//! [`join`] makes of a proof of a subtree, and of a proof that its list is the first part of a
//! longer one, the proof of the subtree in the longer list. Or it finds two strings with one hash,
//! one of each proof. [`two_proofs`] compares two proofs of one subtree. [`quarrel`] looks in an
//! export for two signatures of one interval with different hashes. It carries the proof of the
//! first to the checkpoint of the second, and compares both there.
//!
//! ```rust
//! use cosigner_core::read_export;
//! use quarrel_core::{Quarrel, quarrel};
//! use tree_core::Sha;
//!
//! if let Some(export) = read_export::<Sha>(alloc, bytes)? {
//!     match quarrel::<Sha>(alloc, &export)? {
//!         Quarrel::Agree => println!(rt; "no two signatures are in conflict")?,
//!         Quarrel::Pair { first, second, .. } => println!(rt; "{first} and {second} are")?,
//!     }
//! }
//! ```
//!
//! No clause says which two strings [`quarrel`] finds, if there are several.
#![tactic(auto)]

mod answer;
mod carrying;
mod conflicting;
mod contrasting;
mod joined;
mod joining;
pub mod laws;
mod opened_parts;
mod part;
mod quarrelling;
mod strings;

pub use answer::Quarrel;
pub use contrasting::two_proofs;
pub use joined::Joined;
pub use joining::join;
pub use quarrelling::quarrel;
