//! What can be wrong with a request.

use std::error::Error;
use std::fmt;
use tls_wire::{HashesError, Short};

/// Why bytes aren't a request. They are read from the left, and the first fault is answered.
#[derive(Clone, Copy, Debug, PartialEq, Eq)]
pub enum FormError {
    /// The id, the number, the hash or the vector of hashes that begins at this offset doesn't fit.
    Short(usize),
    /// The length of the hashes is no multiple of 32.
    HashLength,
    /// Some bytes follow the hashes.
    Trailing,
    /// The log's id has no bytes.
    EmptyId,
}

impl fmt::Display for FormError {
    ghost use Rattle.std.specs.Prelude.{Some};
    ghost use Rattle.cosigner_core.specs.Reasons.{form_fault_text};

    ghost output = { λ why. Some (form_fault_text why) };

    fn fmt<W: fmt::Write>(&self, f: &mut fmt::Formatter<W>) -> fmt::Result {
        match self {
            FormError::Short(offset) => write!(f, "Short {offset}"),
            FormError::HashLength => f.write_str("HashLength"),
            FormError::Trailing => f.write_str("Trailing"),
            FormError::EmptyId => f.write_str("EmptyId"),
        }
    }
}

impl Error for FormError {}

impl From<Short> for FormError {
    ghost use Rattle.std.specs.Prelude.{◌≡◌};
    ghost use Rattle.cosigner_core.specs.declared.fault.FormError.TheVariants.{Short as TooShort};

    ghost from_gives = { λ short e. e ≡ TooShort short.place };

    fn from(short: Short) -> FormError {
        FormError::Short(short.place)
    }
}

impl From<HashesError> for FormError {
    ghost use Rattle.std.specs.Prelude.{◌≡◌};
    ghost use Rattle.cosigner_core.specs.Reading.{hashes_fault};

    ghost from_gives = { λ fault e. e ≡ hashes_fault fault };

    fn from(fault: HashesError) -> FormError {
        match fault {
            HashesError::Short(short) => FormError::Short(short.place),
            HashesError::HashLength => FormError::HashLength,
        }
    }
}
