//! The arguments of a command: which command they name, whether they are in their form, and what
//! they say.
//!
//! All arguments are positional, and there are no options. Arguments outside their form are
//! refused, the first fault in the order of [`WordError`]'s variants.
#![tactic(auto)]

mod building;
mod command;
mod error;
mod name;
mod reading;

pub use command::Command;
pub use error::WordError;
pub use reading::{command_word, read_words};
