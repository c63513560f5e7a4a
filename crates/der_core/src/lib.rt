//! Elements in the distinguished encoding rules (X.690): reading them from left to right, the rules
//! for their contents, and writing them. Each value has one encoding, and the first fault from the
//! left is answered.
//!
//! Tags have one byte, and contents fewer than 2 ^ 24 bytes; lengths are definite and in the
//! fewest bytes.
#![tactic(auto)]

mod contents;
mod element;
mod fault;
pub mod laws;
mod reader;
mod set;
pub mod tags;
mod writing;

pub use contents::{bits, boolean, oid, unsigned};
pub use element::Element;
pub use fault::{CertError, DerError};
pub use reader::{Reader, expect, read};
pub use set::set_in_order;
pub use writing::{element_of, put, put_unsigned};
