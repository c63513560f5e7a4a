//! The plan of each command: its input files, its journals, and what it does with their bytes.
//!
//! The laws say that what each command has to answer, as its contract states it, is what comes of
//! its plan, and so that what is proved of every plan holds of it. The crate is made of definitions
//! (`specs/`) and of laws about them (`proofs/`); it has no state and runs nothing.
#![tactic(auto)]

pub mod laws;
