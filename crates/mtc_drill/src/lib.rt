//! The command `drill`: what came of a drill, in eight lines.
//!
//! No clause says how many signatures there are between the bounds, that those which a drill leaves
//! are the printed number, or that one number always prints the same bytes: that is tested alone.
#![tactic(auto)]

mod summary;

pub use summary::drill;
