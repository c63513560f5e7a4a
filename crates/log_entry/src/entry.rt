//! An entry as its fields.

use cert_time::Validity;

/// An entry of a log.
#[derive(Clone, Copy, Debug)]
pub enum Entry<'a> {
    /// The first entry of each log, which is no certificate's.
    Null,
    /// What a certificate says.
    Tbs(TbsEntry<'a>),
}

/// What an entry says of the key of its certificate.
#[derive(Clone, Copy, Debug, PartialEq, Eq)]
pub enum Form {
    /// The hash of the key alone.
    One,
    /// The AlgorithmIdentifier of the key, and then its hash.
    Two,
}

/// The fields of an entry that was read. Each slice lies in the bytes that were read, and all but
/// the hash are whole elements: tag, length and contents.
#[derive(Clone, Copy, Debug)]
pub struct TbsEntry<'a> {
    pub issuer: &'a [u8],
    pub validity: Validity,
    pub validity_der: &'a [u8],
    pub subject: &'a [u8],
    /// The AlgorithmIdentifier of the key, in an entry of form two alone.
    pub algorithm: Option<&'a [u8]>,
    /// The hash of the subjectPublicKeyInfo element, 32 bytes.
    pub key_hash: &'a [u8],
    /// The field with its outer tag A3, or no bytes where it is absent.
    pub extensions: &'a [u8],
}

/// The parts of an entry that is to be written. Issuer, subject, algorithm and extensions are whole
/// elements; extensions are no bytes if they are absent.
#[derive(Clone, Copy, Debug)]
pub struct EntryParts<'a> {
    pub issuer: &'a [u8],
    pub validity: Validity,
    pub subject: &'a [u8],
    /// The AlgorithmIdentifier of the key, in an entry of form two alone.
    pub algorithm: Option<&'a [u8]>,
    /// The hash of the subjectPublicKeyInfo element.
    pub key_hash: &'a [u8; 32],
    pub extensions: &'a [u8],
}
