//! The commands `help` and `version`: the commands that the program has, and the profile and the
//! draft that it follows.
//!
//! No clause says that what a line of `help` has after its colon is what its command prints: a test
//! compares the text with the table of commands.
#![tactic(auto)]

mod answers;
pub mod laws;
mod listing;

pub use answers::{help, version};
