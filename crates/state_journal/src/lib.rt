//! State machines over a journal: what its records make is held in memory, and a record that is
//! appended is taken by the same code that takes it when the journal is opened again.
//!
//! The first record of a journal begins a [`StateMachine`], which takes the others one by one.
//! [`open_state`] opens a journal and the machine that its records make. [`append_to`] appends one
//! record more, which the machine takes where the append succeeds. So after each of these calls the
//! machine is what the durable records make, also after an append that failed.
//!
//! The journal and the machine stay apart: their owner may call either without the other, and keeps
//! what binds them, [`append_to`]'s clause `made`, as a fact of its own.
#![tactic(auto)]

mod appending;
mod error;
mod machine;
mod opening;

pub use appending::append_to;
pub use error::{Misfit, NotBegun, StateOpenError, StateRefused};
pub use machine::StateMachine;
pub use opening::open_state;
