//! An auditor: a certificate that a store accepts is compared with the entries of a log and with
//! the export of a cosigner; and the signatures in an export are compared with one another.

pub use crate::accepting::{JudgedCert, accept};
pub use crate::judging::{
    Accepted, By, Cert, CertError, ProofError, Refusal, Store, StoreError, ValidStore,
};
pub use collide::Finding;
pub use cosigner_core::{Export, ReadExportError, Step, StepList};
pub use cosigner_steps::read_steps;
pub use entry_list::{Entries, Item, Items, ItemsError, read_items};
pub use mtc_io::{Bytes, Memory};
pub use mtc_proof::Proof;
pub use quarrel_core::{Quarrel, quarrel};
pub use tree_core::{Sha, TreeHash};
pub use world_core::{Audit, audit, walk};
