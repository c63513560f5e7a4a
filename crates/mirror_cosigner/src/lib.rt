//! What a mirror of a log asks of a cosigner: to hold the root of its own first items, and to sign
//! subtrees of them.
//!
//! A mirror computes all that it asks from the entries that it stores: the root or the hash, and
//! the proof that leads there from what the cosigner holds. [`advance`] has a cosigner hold the
//! root of the first items, and [`cosign`] has it sign a subtree of what it holds. Before either
//! the mirror compares what is held with its own first items; so a cosigner that gets its records
//! in no other way signs nothing but what the mirror has stored.
//!
//! That is a relation of two lists of records: a mirror's and a cosigner's agree, if each root that
//! is held and each hash that is signed is that of the mirror's own entries. It holds of a fresh
//! mirror and a fresh cosigner of one log, and each record that either appends retains it
//! ([`laws`]). The calls retain it over any crash too.
//!
//! The journal of the mirror is never called here: no call writes both journals.
#![tactic(auto)]

mod advancing;
mod comparing;
mod cosigning;
mod error;
mod hashing;
pub mod laws;

pub use advancing::advance;
pub use cosigning::cosign;
pub use error::MirrorStepError;
