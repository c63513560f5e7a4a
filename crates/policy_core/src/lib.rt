//! What a relying party holds of a log, and how it judges a certificate by that.
//!
//! A [`Store`] has the log's id, the issuer name of its certificates, the index from which on its
//! entries name the algorithm of the key, cosigners and rules over them, the subtrees whose hashes
//! are trusted, and the ranges of serial numbers that are revoked.
//! A [`ValidStore`] is valid by its type: [`ValidStore::read`] reads one from a TOML file, and
//! [`Store::checked`] makes one of a store that a program fills. The judgement of a certificate
//! stands here as a definition, with its answers [`Accepted`] and [`Refusal`]; the call that makes
//! it is of a crate above.
#![tactic(auto)]

mod answer;
mod cosigner_fields;
mod cosigners;
mod error;
mod fields;
mod forms;
mod lists;
mod reading;
mod refusal;
mod rule_fields;
mod rules;
mod store;
mod valid;
mod whole;

pub use answer::{Accepted, By};
pub use cosigners::{Cosigners, Known, MOST_COSIGNERS};
pub use error::{Key, StoreError};
pub use lists::{Revoked, Subtrees, Trusted};
pub use refusal::Refusal;
pub use rules::{Indices, Rule, Rules};
pub use store::Store;
pub use valid::ValidStore;
