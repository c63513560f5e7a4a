//! LM-OTS, the one-time signatures of RFC 8554, with SHA-256 and 32-byte values: what the trees of
//! `lms_core` sign and verify with.
//!
//! A one-time key is a number `q` under an identifier of 16 bytes and a secret of 32 bytes. Its
//! chains start at hashes of the secret (RFC 8554, appendix A), and so does the randomizer of its
//! signature, so one key and one message have one signature. A key that signs two messages is
//! broken: nothing here counts them, and the caller uses each number once.
//!
//! Nothing here takes memory. A signature goes into a `SigBuf`, which holds the longest one of two
//! levels of trees of height 10.
#![tactic(auto)]

mod chains;
mod checking;
mod digits;
mod fields;
pub mod laws;
mod marks;
mod parameters;
mod signature_buffer;
mod signing;

pub use chains::secret_start;
pub use checking::candidate;
pub use fields::{put, read_32, read_u32};
pub use marks::marked_hasher;
pub use parameters::OtsType;
pub use signature_buffer::SigBuf;
pub use signing::{public, sign};
