//! Events of files: what a run, a stop, a kill or another program does to the files of one owner.
//!
//! An event says what a run did with a journal and how it ended; what it leaves is a relation of
//! two sets of crash states, those before and those afterwards. What holds of lists of records and
//! of one-time keys follows from one invariant, that records are durable; the history of a journal
//! is a second account of the same events. An owner has one journal, a journal with its tiles, or
//! the journals of a mirror and of a cosigner. The crate is made of definitions (`specs/`) and of
//! laws about them (`proofs/`); it has no state and runs nothing.
//!
//! What a journal may hold, what a program's runs are, and which tiles go with which records are
//! parameters (`JournalRules`, `Programs`), so that nothing here depends on what a log or a
//! cosigner is.
#![tactic(auto)]

pub mod laws;
mod rules;

pub use rules::{JournalRules, Programs};
