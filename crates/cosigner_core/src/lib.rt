//! Cosigners of a log, as the draft on Merkle Tree Certificates has them: they hold the root of a
//! log and sign subtrees of it, each over a journal of its own.
//!
//! [`create`] begins the journal of a new cosigner, and [`pack`] takes the memory for it before
//! there is a disk. [`KeylessCosigner::open`] reads and tests the records of a journal one by one,
//! and [`KeylessCosigner::advance`] holds the root of a larger log. [`Cosigner::with_key`] rebuilds
//! the key, which costs more than all else in an opening, and which only a signature and an export
//! need; [`Cosigner::open`] does both. [`Cosigner::cosign`] signs a subtree by the next one-time
//! key, once every crash state of the disk holds the record with its number: so no one-time key
//! signs twice, whenever the machine stops.
//!
//! The key has one level or two. With two levels one-time keys sign messages while the newest lower
//! tree has some left, and [`Cosigner::child`] makes the next one, once every crash state of the
//! disk holds its Child record.
//!
//! What the records of a journal make of a cosigner is one function of them. A cosigner follows it:
//! unless an append has failed, what it holds and its next one-time key are what the records on its
//! disk make.
//!
//! [`Cosigner::export`] writes what others may know of a cosigner: its records, but for the first
//! one, which holds the secret; and [`read_export`] reads it, and tests its records one by one.
//!
//! Requests are bytes in the presentation language of TLS (RFC 8446, section 3).
#![tactic(auto)]

mod contents;
mod cosigner;
mod creation;
mod error;
mod export;
mod export_reading;
mod fault;
mod following;
mod keyless;
pub mod laws;
mod lists;
mod machine;
mod progress;
mod reading;
mod record;
mod requests;
mod settings;
mod step;
mod step_record;
mod terms;
mod writing;

pub use cosigner::Cosigner;
pub use creation::{create, pack};
pub use error::{ChildError, CosignError, CosignerOpenError, ReadExportError};
pub use export_reading::read_export;
pub use fault::FormError;
pub use following::may_follow;
pub use journal_core::CopyError as ExportError;
pub use keyless::KeylessCosigner;
pub use lists::{Export, StepList};
pub use progress::Progress;
pub use reading::{read_advance, read_subtree};
pub use requests::{AdvanceRequest, SubtreeRequest};
pub use settings::CosignerSettings;
pub use step::Step;
pub use terms::KeyTerms;
pub use tree_proofs::{Checkpoint, Hashes};
pub use writing::{write_advance, write_subtree};
