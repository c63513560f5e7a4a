//! The parties of a drill: its draws, and cosigners on devices in memory that stop at times that
//! are drawn, and are opened again on what a stop leaves.
//!
//! A drill has rounds, which [`Dice`] draws from a number: for each call that adds a record a turn,
//! with a stop in it or without one. [`Cosigners`] are the three cosigners of a drill, which hold
//! what they are shown of a log, and sign it. The log stands above.
#![tactic(auto)]

mod cosigner;
mod cosigner_calls;
mod cosigner_party;
mod cosigners;
mod dice;
mod exports;
mod ids;
mod round;
mod signing;
mod stops;
mod turns;

pub use cosigner_party::CosignerParty;
pub use cosigners::{Cosigners, Devices};
pub use dice::Dice;
pub use exports::{kept_in, whole};
pub use ids::{LOG, id_of};
pub use round::Round;
pub use stops::Stops;
pub use turns::{Stop, Turn, Turns};
