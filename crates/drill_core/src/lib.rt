//! The drill: a log and three cosigners on devices in memory, which stop at times that a number
//! draws, and are still right.
//!
//! A drill has sixteen rounds. In each the log issues entries and sometimes sets a landmark, each
//! cosigner follows it and signs all of it, and a certificate is written. Before each call that
//! adds a record the machine may be made to stop within it: the party is opened again on one of the
//! crash states that the stop may leave, and continues. [`play_drill`] plays the rounds of a number
//! and answers what it has made.
#![tactic(auto)]

mod audits;
mod calls;
mod drill;
mod judged_cert;
mod light;
mod listed;
mod log;
mod log_party;
mod made;
mod output;
mod parties;
mod play;
mod requests;
mod store;
mod tree;

pub use drill::play_drill;
pub use made::{Certs, Counts, DrillOutput};
