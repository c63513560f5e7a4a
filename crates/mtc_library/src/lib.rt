//! The calls of the roles in Merkle Tree Certificates, a module for each role, with the types that
//! their signatures name: so a program names this crate and no other.
//!
//! - [`judging`]: a relying party accepts or refuses certificates.
//! - [`issuing`]: an authority keeps a log and makes certificates.
//! - [`cosigning`]: a cosigner holds the root of a log and signs its subtrees.
//! - [`auditing`]: an auditor compares what was accepted with the entries of a log, and the
//!   signatures of a cosigner with one another.
//! - [`monitoring`]: a monitor reports what a log has under watched names.
//!
//! A log or a cosigner that stands in a file is opened by [`cosigning::open_journal`], which locks
//! it. The words of the contracts stand by role in `specs`. What begins a log or a cosigner stands
//! here, and so do [`judging::accept`] and [`judging::is_for`]; all else is of the crates of the
//! roles. No clause says which call a program has to make: each states what it requires.
#![tactic(auto)]

mod accepting;
pub mod auditing;
mod beginning;
pub mod cosigning;
pub mod issuing;
pub mod judging;
pub mod monitoring;
