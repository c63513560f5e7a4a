//! Why a signature is refused.

use std::error::Error;
use std::fmt;

/// Why a signature is refused, in the order of the tests. With several levels of trees the first
/// two are tested once, and then each level from the top for the other three.
#[derive(Clone, Copy, Debug, PartialEq, Eq)]
pub enum SigError {
    /// The public key has another length than its grammar's, or names an unknown type or number of
    /// levels.
    BadKey,
    /// The signature is not made of whole parts by the types that it names itself.
    BadLength,
    /// The signature has other types than the key, or another number of levels.
    TypeDiffers,
    /// The number of the one-time key is not below the number of the tree's leaves.
    BadIndex,
    /// The signature leads to another root than the key's: another message, another key, or a
    /// signature that was changed.
    WrongRoot,
}

impl fmt::Display for SigError {
    ghost use Rattle.std.specs.Prelude.{Some};
    ghost use Rattle.lms_core.specs.Reasons.{sig_fault_text};

    ghost output = { λ why. Some (sig_fault_text why) };

    fn fmt<W: fmt::Write>(&self, f: &mut fmt::Formatter<W>) -> fmt::Result {
        match self {
            SigError::BadKey => f.write_str("BadKey"),
            SigError::BadLength => f.write_str("BadLength"),
            SigError::TypeDiffers => f.write_str("TypeDiffers"),
            SigError::BadIndex => f.write_str("BadIndex"),
            SigError::WrongRoot => f.write_str("WrongRoot"),
        }
    }
}

impl Error for SigError {}
