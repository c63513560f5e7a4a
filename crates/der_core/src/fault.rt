//! What can be wrong with an element, and with a certificate.

use std::error::Error;
use std::fmt;

/// A fault of one element. The number is the offset of that element in the input. The faults of one
/// element are tested in this order: of its tag `WrongTag` where nothing is left, `HighTag`,
/// `WrongTag` where another tag stands; of its length `Truncated` where it is missing, `LongForm`
/// for a first byte of 80 or above 83 in hexadecimal, `Truncated` where further bytes are missing,
/// `LongForm` where they aren't the fewest; `Truncated` where the contents end past what surrounds
/// the element; and then those of its contents.
#[derive(Clone, Copy, Debug, PartialEq, Eq)]
pub enum DerError {
    /// The element, or its length, ends past what surrounds it.
    Truncated(usize),
    /// The length isn't definite, isn't in the fewest bytes, or has more than three.
    LongForm(usize),
    /// The tag continues in further bytes.
    HighTag(usize),
    /// Another tag was wanted, or an element where nothing is left.
    WrongTag(usize),
    /// A whole number that is empty or isn't in the fewest bytes.
    BadInteger(usize),
    /// A truth value other than one byte of 00 or FF.
    BadBool(usize),
    /// An object identifier that is empty, unfinished, or has an arc that isn't in the fewest
    /// bytes.
    BadOid(usize),
    /// A string of bits whose unused bits are more than seven or aren't zero.
    BadBits(usize),
    /// A set whose encodings don't rise.
    SetOrder(usize),
    /// Some bytes follow the last field.
    Trailing(usize),
}

impl fmt::Display for DerError {
    ghost use Rattle.std.specs.Prelude.{Some};
    ghost use Rattle.der_core.specs.Reasons.{der_fault_text};

    ghost output = { λ why. Some (der_fault_text why) };

    fn fmt<W: fmt::Write>(&self, f: &mut fmt::Formatter<W>) -> fmt::Result {
        match self {
            DerError::Truncated(offset) => write!(f, "Truncated {offset}"),
            DerError::LongForm(offset) => write!(f, "LongForm {offset}"),
            DerError::HighTag(offset) => write!(f, "HighTag {offset}"),
            DerError::WrongTag(offset) => write!(f, "WrongTag {offset}"),
            DerError::BadInteger(offset) => write!(f, "BadInteger {offset}"),
            DerError::BadBool(offset) => write!(f, "BadBool {offset}"),
            DerError::BadOid(offset) => write!(f, "BadOid {offset}"),
            DerError::BadBits(offset) => write!(f, "BadBits {offset}"),
            DerError::SetOrder(offset) => write!(f, "SetOrder {offset}"),
            DerError::Trailing(offset) => write!(f, "Trailing {offset}"),
        }
    }
}

impl Error for DerError {}

/// Why bytes aren't a certificate (RFC 5280, section 4.1) in the form that is taken here.
#[derive(Clone, Copy, Debug, PartialEq, Eq)]
pub enum CertError {
    /// A fault of an element.
    Der(DerError),
    /// The version is absent or isn't version 3.
    BadVersion,
    /// The serial number isn't from 1 to 2 ^ 64 - 1.
    BadSerial,
    /// A time that isn't in its form, or names no time that exists.
    BadTime,
    /// The algorithm beside the signature isn't the one in the certificate.
    AlgorithmsDiffer,
    /// A second extension with the same identifier.
    RepeatedExtension,
    /// A unique identifier of the issuer or the subject.
    UniqueId,
    /// An extension outside its form, or a list of extensions without one.
    BadExtension,
    /// A name with a set that is empty.
    BadName,
}

impl fmt::Display for CertError {
    ghost use Rattle.std.specs.Prelude.{Some};
    ghost use Rattle.der_core.specs.Reasons.{cert_fault_text};

    ghost output = { λ why. Some (cert_fault_text why) };

    fn fmt<W: fmt::Write>(&self, f: &mut fmt::Formatter<W>) -> fmt::Result {
        match self {
            CertError::Der(fault) => fault.fmt(f),
            CertError::BadVersion => f.write_str("BadVersion"),
            CertError::BadSerial => f.write_str("BadSerial"),
            CertError::BadTime => f.write_str("BadTime"),
            CertError::AlgorithmsDiffer => f.write_str("AlgorithmsDiffer"),
            CertError::RepeatedExtension => f.write_str("RepeatedExtension"),
            CertError::UniqueId => f.write_str("UniqueId"),
            CertError::BadExtension => f.write_str("BadExtension"),
            CertError::BadName => f.write_str("BadName"),
        }
    }
}

impl Error for CertError {}

impl From<DerError> for CertError {
    ghost use Rattle.std.specs.Prelude.{◌≡◌};
    ghost use Rattle.der_core.specs.declared.fault.CertError.TheVariants.{Der};

    ghost from_gives = { λ d e. e ≡ Der d };

    fn from(fault: DerError) -> CertError {
        CertError::Der(fault)
    }
}
