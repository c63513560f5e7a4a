//! What a command does, as data.
//!
//! A plan has the files that a command reads, each with its limit, the journals that it opens or
//! makes, and a function from the bytes of the files to a step: a file is misread, or there is work
//! to do on the journals. What a command has to answer over any files is computed from its plan,
//! and so is which files it names. The crate is made of definitions (`specs/`) and of laws about
//! them (`proofs/`); it has no state and runs nothing.
//!
//! The kinds of journals are a parameter (`Kinds`), so that nothing here depends on what a log or a
//! cosigner is: another kind changes no law.
#![tactic(auto)]

mod kinds;
pub mod laws;

pub use kinds::JournalKinds;
