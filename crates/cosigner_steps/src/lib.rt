//! Steps of a cosigner: what it holds after them, what their proofs hash, and which list of entries
//! they are of.
//!
//! [`read_steps`] reads an export, and [`held_by`] gives the checkpoint that its cosigner holds at
//! last. All else here is definitions and laws, which take no part at run time. The proofs in the
//! steps of an export lead from each checkpoint to the next. So a list with the last root has what
//! was signed, or two different strings have one hash.
#![tactic(auto)]

mod held;
pub mod laws;
mod reading;

pub use held::held_by;
pub use reading::read_steps;
