//! The commands of those who rely on certificates, or audit a log and its cosigners: `verify`,
//! `show`, `member`, `trust-landmarks`, `audit` and `quarrel`. They read files alone, and open no
//! journal.
//!
//! What each has to answer is a definition over its arguments and the files of the file system, in
//! a file of `specs/` of its own.
//!
//! No clause says that what `trust-landmarks` prints is part of a store by which a certificate of
//! each covered entry is accepted: that is tested alone.
#![tactic(auto)]

mod accepted;
pub mod audit;
mod claim;
mod comparing;
mod found;
mod input;
pub mod member;
pub mod quarrel;
mod reasons;
mod replies;
pub mod show;
mod subtrees;
mod tables;
pub mod trust;
pub mod verify;
