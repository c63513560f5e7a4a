//! A certificate as its fields.

use cert_time::Validity;

/// The fields of a certificate that was read. Each slice lies in the bytes that were read, and all
/// but the proof are whole elements: tag, length and contents.
#[derive(Clone, Copy, Debug)]
pub struct Cert<'a> {
    /// From 1 on.
    pub serial: u64,
    pub issuer: &'a [u8],
    pub validity: Validity,
    pub validity_der: &'a [u8],
    pub subject: &'a [u8],
    /// The public key with its algorithm: subjectPublicKeyInfo.
    pub spki: &'a [u8],
    /// The field with its outer tag A3, or no bytes where it is absent.
    pub extensions: &'a [u8],
    pub algorithm: &'a [u8],
    /// The bytes of the signature, without the byte that counts unused bits.
    pub proof: &'a [u8],
}
