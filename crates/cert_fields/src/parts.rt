//! The parts of a certificate that is to be written.

use cert_time::Validity;
use mtc_io::Bytes;

/// The parts of a certificate whose signature is a Merkle tree proof. Issuer, subject, public key
/// and extensions are whole elements; extensions are no bytes if they are absent.
#[derive(Debug, Drop)]
pub struct CertParts {
    pub serial: u64,
    pub issuer: Bytes,
    pub validity: Validity,
    pub subject: Bytes,
    pub spki: Bytes,
    pub extensions: Bytes,
    /// The bytes of the signature.
    pub proof: Bytes,
}
