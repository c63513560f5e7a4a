//! Input files of commands that are read as streams: files of entries.
//!
//! A command reads most of its input files whole. A file of entries may be as long as a log, so
//! [`fold_input`] hands its items to a fold as it reads them. Its refusals are those of
//! `mtc_command::read_input`; the fault of a file that has one is an answer.
//!
//! No clause says how much memory it takes: a buffer of a few hundred kilobytes, and beside it what
//! the fold takes.
#![tactic(auto)]

mod input;

pub use input::fold_input;
