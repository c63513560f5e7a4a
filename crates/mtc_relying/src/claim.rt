//! What an audit compares with the entries of a log.

use crate::accepted::AcceptedCert;
use cosigner_core::Export;
use mtc_command::{Answer, Stop};
use policy_core::ValidStore;

/// What was accepted of a certificate, the store that accepts it, and the export of a cosigner, if
/// there is one.
#[derive(Drop)]
pub(crate) struct Claim<'b> {
    pub(crate) accepted: AcceptedCert<'b>,
    pub(crate) store: ValidStore,
    pub(crate) kept: Option<Export>,
}

/// What comes of the files of an audit but its entries.
#[derive(Drop)]
pub(crate) enum Judged<'a, 'b> {
    /// The store has a fault, which is reported before one of the entries.
    BadStore(Stop<'a>),
    /// The export has a fault, or the certificate isn't accepted. A fault of the entries is
    /// reported before.
    Ends(Result<Answer, Stop<'a>>),
    /// This is to be compared with the entries.
    Claims(Claim<'b>),
}
