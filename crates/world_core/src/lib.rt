//! Audits: one list of entries that underlies what cosigners have signed and relying parties have
//! accepted.
//!
//! [`audit`] compares the acceptance of a certificate with a list of entries that has the
//! landmark's hash, or the root of a cosigner's export. It shows that the certificate's entry and
//! key stand at their index, or two different strings with one hash; or else that the export does
//! not support the acceptance. [`walk`] does the same for one signature of a cosigner: through the
//! proofs in its export, from what the cosigner holds at last back to what it held when it signed.
//! [`wanted_hash`] and [`recorded_at`] are what an audit asks before it reads any entry: which
//! hash the list has to have, and whether the export supports the acceptance.
#![tactic(auto)]

mod answer;
mod auditing;
mod by_cosigners;
mod deciding;
pub mod laws;
mod prefix;
mod signed;
mod supporting;
mod wanted;

pub use answer::Audit;
pub use auditing::audit;
pub use cosigner_steps::held_by;
pub use prefix::has_prefix;
pub use signed::walk;
pub use supporting::recorded_at;
pub use wanted::{WantedHash, wanted_hash};
