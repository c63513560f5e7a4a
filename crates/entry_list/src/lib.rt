//! The entries of a log as a file: each entry with the key for which it was made.
//!
//! For each item the file has the entry and the key, each after its length of two bytes in the
//! presentation language of TLS (RFC 8446, section 3.4). An entry of type 1 holds the hash of a
//! key, and stands beside that key; any other entry stands beside a key of no bytes. What is read
//! borrows from the bytes of the file, so a large file isn't copied: only the offset of each item
//! is stored, in eight bytes.
#![tactic(auto)]

mod error;
mod items;
pub mod laws;
mod reading;

pub use error::ItemsError;
pub use items::{Entries, Item, Items};
pub use reading::{is_key_of, read_items};
