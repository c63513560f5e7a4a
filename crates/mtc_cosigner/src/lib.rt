//! The commands of a cosigner: `keygen`, `init-cosigner`, `init-cosigner2`, `advance`, `child`,
//! `cosign` and `export`.
//!
//! A journal is opened by the file system and read as a cosigner's, worked on and closed
//! ([`on_cosigner`]); what is done with the cosigner is a [`Work`]. `export` writes its text while
//! it reads the journal. The key is made only for a signature and an export. What each command has
//! to reply, and what it does with the journal, are definitions in `specs/`.
//!
//! No clause here says that a signature that is printed counts for its cosigner in a certificate: a
//! law of the crate `mtc_laws` does, over `relying_party::law_cosignatures_count`.
#![tactic(auto)]

pub mod child;
mod cosigner_command;
pub mod export;
pub mod init_cosigner;
pub mod keygen;
pub mod requests;
mod work;

pub use cosigner_command::{on_cosigner, refuse_cosigner};
pub use work::Work;
