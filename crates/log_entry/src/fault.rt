//! What can be wrong with an entry.

use der_core::{CertError, DerError};
use std::error::Error;
use std::fmt;

/// Why bytes aren't an entry. First there are too few bytes for a type, then the type is tested,
/// then the body is read from the left.
#[derive(Clone, Copy, Debug, PartialEq, Eq)]
pub enum EntryError {
    /// There are fewer than two bytes.
    Short,
    /// The type is neither 0 nor 1.
    UnknownType(u16),
    /// A fault of a field, or of what follows the last one. Offsets count in the bytes of the
    /// entry.
    Body(CertError),
    /// The hash of the public key doesn't have 32 bytes.
    BadHashLength,
    /// The null entry continues after its type.
    NullHasBody,
}

impl fmt::Display for EntryError {
    ghost use Rattle.std.specs.Prelude.{Some};
    ghost use Rattle.log_entry.specs.Reasons.{entry_fault_text};

    ghost output = { λ why. Some (entry_fault_text why) };

    fn fmt<W: fmt::Write>(&self, f: &mut fmt::Formatter<W>) -> fmt::Result {
        match self {
            EntryError::Short => f.write_str("Short"),
            EntryError::UnknownType(number) => write!(f, "UnknownType {number}"),
            EntryError::Body(fault) => fault.fmt(f),
            EntryError::BadHashLength => f.write_str("BadHashLength"),
            EntryError::NullHasBody => f.write_str("NullHasBody"),
        }
    }
}

impl Error for EntryError {}

impl From<CertError> for EntryError {
    ghost use Rattle.std.specs.Prelude.{◌≡◌};
    ghost use Rattle.log_entry.specs.declared.fault.EntryError.TheVariants.{Body};

    ghost from_gives = { λ c e. e ≡ Body c };

    fn from(fault: CertError) -> EntryError {
        EntryError::Body(fault)
    }
}

impl From<DerError> for EntryError {
    ghost use Rattle.std.specs.Prelude.{◌≡◌};
    ghost use Rattle.der_core.specs.declared.fault.CertError.TheVariants.{Der};
    ghost use Rattle.log_entry.specs.declared.fault.EntryError.TheVariants.{Body};

    ghost from_gives = { λ d e. e ≡ Body (Der d) };

    fn from(fault: DerError) -> EntryError {
        EntryError::Body(CertError::Der(fault))
    }
}
