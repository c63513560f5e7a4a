//! Bytes in the presentation language of TLS (RFC 8446, section 3): a cursor that reads numbers,
//! strings of bytes and vectors from a slice, and calls that write them. In addition anchor ids,
//! the names of trust anchors, as bytes and as text, numbers in decimal, and the lines of a text.
#![tactic(auto)]

mod anchor;
mod arcs;
mod cursor;
mod decimal;
mod dotted;
mod fault;
pub mod laws;
mod lines;
mod writing;

pub use anchor::AnchorId;
pub use cursor::{Cursor, HashesError, Short};
pub use decimal::read_number;
pub use fault::{AnchorBytesError, AnchorError};
pub use lines::{cut_at, first_line};
pub use writing::{put_bytes, put_hashes, put_u8, put_u16, put_u32, put_u64, put_vec8, put_vec16};
