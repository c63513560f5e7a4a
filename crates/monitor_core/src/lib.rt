//! A monitor of a log: what it has under watched names. A monitor retains of a log the number of
//! its entries and the peaks of its tree, reads the new entries, tests that they lead from there to
//! a new size and root, and reports each entry with a name under a watched domain.
//!
//! [`monitor`] is one run over a list; [`Run`] is the same for entries that come one after another.
//! What it finds is a report and the next state; [`write_found`] writes both, and [`read_state`]
//! reads the state from that text. [`read_watch`] reads the domains.
//!
//! A state is believed. No clause says anything of one that isn't the state of the list that the
//! monitor saw: a later state of the same log, for one, is taken, and what lies between isn't
//! reported. Two monitors of one log that began without entries, whose texts end with one line and
//! whose lists have fewer than 2^63 entries, saw one list, or their lists show two different
//! strings with one hash ([`law_one_state_is_of_one_list`](laws::law_one_state_is_of_one_list)).
//!
//! No clause says how long a run takes: it hashes each entry once, and a pair for each peak that a
//! leaf joins, and compares each dNSName with each domain.
#![tactic(auto)]

mod error;
mod findings;
mod growth;
pub mod laws;
mod lines;
mod names;
mod peaks_text;
mod reporting;
mod running;
mod state_text;
mod states;
mod taking;
mod watching;
mod writing;

pub use error::{MonitorError, TextError};
pub use findings::Found;
pub use lines::Line;
pub use running::monitor;
pub use state_text::read_state;
pub use states::State;
pub use taking::Run;
pub use watching::{Watch, read_watch};
pub use writing::{write_found, write_state};
