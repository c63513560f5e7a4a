//! The commands of a monitor, who watches a log from outside: `root`, `held`, `monitor-init` and
//! `monitor`. They read files alone, and open no journal.
//!
//! What each has to answer is a definition over its arguments and the files of the file system, in
//! a file of `specs/` of its own.
//!
//! No clause says that a state file is the text of the run before: `monitor` believes the state
//! that it is given. If each is, [`laws::law_state_files_chain`] says what was printed.
#![tactic(auto)]

pub mod held;
mod held_lines;
pub mod laws;
pub mod monitor;
mod reasons;
pub mod root;
