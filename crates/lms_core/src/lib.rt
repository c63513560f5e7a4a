//! LMS, the hash trees of one-time keys of RFC 8554, with SHA-256 and 32-byte values.
//!
//! A `Tree` of height 5 or 10 is made from a `Secret` of 48 bytes: an identifier of 16 bytes and a
//! seed of 32. It keeps all its nodes and signs with any of its one-time keys; that no number signs
//! twice is what its owner counts (`hss_core`). `verify` takes signatures of all five heights and
//! four widths.
#![tactic(auto)]

mod checking;
mod climbing;
mod growing;
mod heights;
mod key_tree;
pub mod laws;
mod nodes;
mod private_key;
mod refusals;
mod secret;
mod whole;

pub use checking::{PUBLIC_KEY_LEN, check, read_key, verify};
pub use heights::LmsType;
pub use key_tree::Tree;
pub use private_key::PrivateKey;
pub use refusals::SigError;
pub use secret::{SECRET_LEN, Secret};
pub use whole::prefix;
