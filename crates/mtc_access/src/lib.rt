//! Whether a command only asks: it reads its journals, and leaves each of them, and each file
//! beside one, as it is.
//!
//! The program opens the journals of such a command to read them alone, with others that do. That
//! a command only asks is a law of its plan, [`laws::law_asking_leaves_all`]; so no other command
//! is ever taken for one.
#![tactic(auto)]

mod asking;
pub mod laws;

pub use asking::{only_asks, words_only_ask};
