//! Histories of parties: what became of logs, cosigners and mirrors, step by step.
//!
//! A party is a log, a cosigner or a mirror with its journal. Its history is a list of
//! steps: a record becomes pending, durable, and released, and the party stops anywhere.
//! [`history`] answers the states of all parties after a list of steps, or the first step that the
//! rules do not allow: a record may begin exactly if none is pending and the rules of its party
//! allow it after the durable ones. Its length is not tested: an Entry may have up to 131,075 bytes
//! here, and in a journal's file 131,072.
//!
//! The laws say what holds in every history: the records of a party are valid with the pending one
//! and without it, what is durable stays, and each number of a released record is that of a durable
//! one, once.
#![tactic(auto)]

mod error;
pub mod laws;
mod moves;
mod replay;
mod rules;
mod start;
mod state;
mod step;

pub use error::HistoryError;
pub use replay::history;
pub use start::PartyStart;
pub use state::PartyState;
pub use step::PartyStep;
