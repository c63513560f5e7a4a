//! The headline of the promise: from a cosignature that went out, by a certificate that `verify`
//! accepts, to what `audit` prints. It stands above the laws of the program, and joins them.
//!
//! No clause says that a signature which verifies was handed out by its cosigner: signatures may be
//! forged, and then an audit answers by the export alone.
#![tactic(auto)]

pub mod laws;
pub mod witnesses;
