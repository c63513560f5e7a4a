//! A relying party's judgement of a certificate: whether its entry is in the log that the party
//! trusts.
//!
//! A [`ValidStore`](policy_core::ValidStore) says what is trusted. First the fields of the
//! certificate are tested, from its algorithm to its serial number, and then its proof is read. If
//! the proof names an interval that the store trusts, the certificate is accepted exactly if the
//! proof gives the hash that is trusted, whatever signatures it has. Else it is accepted exactly if
//! the store has rules, and the cosigners that have signed meet each of them.
//!
//! No clause says that a signature is verified only of a cosigner that some rule names, and once at
//! most.
#![tactic(auto)]

mod admission;
mod counting;
mod judging;
pub mod laws;
mod rules;
mod trust;

pub use judging::{judge, judge_cert};
