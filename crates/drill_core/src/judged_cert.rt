//! A certificate that is accepted.

use cert_fields::Cert;
use mtc_proof::Proof;
use policy_core::Accepted;

/// What a store accepts of a certificate, with the certificate and its proof.
#[derive(Clone, Copy, Debug)]
pub(crate) struct JudgedCert<'a> {
    pub(crate) accepted: Accepted,
    pub(crate) cert: Cert<'a>,
    pub(crate) proof: Proof<'a>,
}
