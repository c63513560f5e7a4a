//! Fields of a TOML file: the tree that a file's text is, the keys that a table may have, and
//! values in the forms that files use. These forms are numbers that aren't negative, bytes in
//! base64 (RFC 4648, section 4) and hashes in hexadecimal (section 8).
//!
//! Contracts see a table as its members and a value as its data, in the words of `toml`. Only the
//! tree counts: an inline table is as good as one with a header.
#![tactic(auto)]

mod codes;
mod table;
mod tree;

pub use codes::{bytes_of, hash_of, number_of};
pub use table::{keys_are_among, value_at};
pub use tree::{TreeError, read_tree};
