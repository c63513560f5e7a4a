//! The commands on a cosigner and a mirror of one log: `mirror-advance` and `mirror-cosign`.
//!
//! The journal of the cosigner is opened first, then that of the mirror, and the file of its tiles.
//! The mirror computes a request from its items, and the cosigner appends one record to its journal
//! or is refused. The mirror's journal and its tiles are only read. All are closed in the opposite
//! order on each path. What each command has to reply, and what it does with both journals, are
//! definitions in `specs/`.
//!
//! No clause says that the memory for the tiles is taken before any file is opened: the order of
//! the calls is read off the program.
#![tactic(auto)]

mod commands;
mod opening;
mod steps;
mod work;

pub use commands::{mirror_advance, mirror_cosign};
