//! A certificate that was accepted.

use cert_fields::Cert;
use mtc_proof::Proof;
use policy_core::Accepted;

/// What was accepted, with the certificate and its proof.
#[derive(Clone, Copy, Debug)]
pub(crate) struct AcceptedCert<'a> {
    pub(crate) accepted: Accepted,
    pub(crate) cert: Cert<'a>,
    pub(crate) proof: Proof<'a>,
}
