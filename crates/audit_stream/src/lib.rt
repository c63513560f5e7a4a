//! Audits over a stream: what one pass over a list of entries gives, and the answer by that.
//!
//! [`world_core::audit`] holds the whole list. Most of its answers follow from a summary: how many
//! entries there are, the tree hash of one part of them, and the item at one index. [`summing`] is
//! a fold for one pass over a file of entries, [`summary_of`] gives what it found, and [`decided`]
//! the answer. Only two strings with one hash have to be looked for in the list itself.
#![tactic(auto)]

mod asking;
mod deciding;
pub mod laws;

pub use asking::{Summary, summary_of, summing};
pub use deciding::decided;
