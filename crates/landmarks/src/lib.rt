//! The landmarks of a log, by which a certificate needs no signature (the draft on Merkle Tree
//! Certificates, where it defines landmarks): which of them are active, which subtrees cover the
//! entries since the landmark before each, and the text in which they are published, both ways.
//! [`MOST_ACTIVE`] and [`MOST_ENTRIES`] are the most of them, and of entries, that a log may allow.
#![tactic(auto)]

mod covers;
mod error;
pub mod laws;
mod limits;
mod list;
mod reading;
mod writing;

pub use covers::{active, covering, subtrees};
pub use error::ListError;
pub use limits::{MOST_ACTIVE, MOST_ENTRIES};
pub use list::{Landmarks, of_marks};
pub use reading::read_list;
pub use writing::write_list;
