//! HSS, levels of LMS trees after RFC 8554, with SHA-256: what the signatures of cosigners are, and
//! whether they verify.
//!
//! `verify` takes 1 to 8 levels of all heights and widths, and no memory. The keys that sign stand
//! in `hss_keys`.
#![tactic(auto)]

mod checking;
pub mod laws;
mod levels;

pub use checking::{PUBLIC_KEY_LEN, read_key, verify};
pub use lmots_core::{OtsType, SigBuf};
pub use lms_core::{LmsType, SECRET_LEN, Secret, SigError};
