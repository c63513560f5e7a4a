//! Keys that sign, of one level or of two after RFC 8554, with SHA-256.
//!
//! An `HssKey` has trees of height 5 or 10 and counts: each signature uses the next one-time key.
//! With two levels each one-time key of the upper tree signs the public key of a lower tree. The
//! lower trees are derived from the secret and made one after the other, each when the one before
//! it is used up: 1,024 to 1,048,576 signatures, of which the key holds two trees. A key keeps its
//! counts in memory alone, so its owner writes down that a number is used before the signature goes
//! out, and that a lower tree is made before one of its keys signs.
//!
//! No clause says that the lower trees' secrets are hard to guess: that is SHA-256's.
#![tactic(auto)]

mod hss_key;
pub mod laws;
mod lower;
mod signing;

pub use hss_key::HssKey;
pub use lower::Lower;
