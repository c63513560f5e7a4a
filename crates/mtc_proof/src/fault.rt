//! What can be wrong with a proof.

use std::error::Error;
use std::fmt;
use tls_wire::{HashesError, Short};

/// Why bytes aren't a proof, or a list of signatures. They are read from the left, the signatures
/// before what follows them, and the first fault is answered.
#[derive(Clone, Copy, Debug, PartialEq, Eq)]
pub enum ProofError {
    /// The number, the vector of hashes, the id or the signature that begins at this offset doesn't
    /// fit.
    Short(usize),
    /// The length of the path is no multiple of 32.
    HashLength,
    /// Some bytes follow the signatures.
    Trailing,
    /// The signature that begins at this offset has a cosigner's id of no bytes.
    EmptyId(usize),
}

impl fmt::Display for ProofError {
    ghost use Rattle.std.specs.Prelude.{Some};
    ghost use Rattle.mtc_proof.specs.Reasons.{proof_fault_text};

    ghost output = { λ why. Some (proof_fault_text why) };

    fn fmt<W: fmt::Write>(&self, f: &mut fmt::Formatter<W>) -> fmt::Result {
        match self {
            ProofError::Short(offset) => write!(f, "Short {offset}"),
            ProofError::HashLength => f.write_str("HashLength"),
            ProofError::Trailing => f.write_str("Trailing"),
            ProofError::EmptyId(offset) => write!(f, "EmptyId {offset}"),
        }
    }
}

impl Error for ProofError {}

impl From<Short> for ProofError {
    ghost use Rattle.std.specs.Prelude.{◌≡◌};
    ghost use Rattle.mtc_proof.specs.declared.fault.ProofError.TheVariants.{Short as TooShort};

    ghost from_gives = { λ short e. e ≡ TooShort short.place };

    fn from(short: Short) -> ProofError {
        ProofError::Short(short.place)
    }
}

impl From<HashesError> for ProofError {
    ghost use Rattle.std.specs.Prelude.{◌≡◌};
    ghost use Rattle.mtc_proof.specs.Reading.{of_hashes};

    ghost from_gives = { λ fault e. e ≡ of_hashes fault };

    fn from(fault: HashesError) -> ProofError {
        match fault {
            HashesError::Short(short) => ProofError::Short(short.place),
            HashesError::HashLength => ProofError::HashLength,
        }
    }
}
