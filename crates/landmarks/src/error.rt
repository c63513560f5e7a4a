//! What can be wrong with a list of landmarks.

use mtc_io::Memory as NoMemory;
use std::error::Error;
use std::fmt;

/// Why a text isn't a list of landmarks. Lines are numbered from 0 and read in order, the form of a
/// line before what its number has to be; the first fault is answered.
#[derive(Clone, Copy, Debug, PartialEq, Eq)]
pub enum ListError {
    /// This line isn't in its form, or is missing, or follows the last one.
    BadLine(usize),
    /// The size in this line isn't below that in the line before it.
    NotFalling(usize),
    /// Line 0 has more active landmarks than are allowed, or than there are.
    TooManyActive,
    /// The largest size is above the log's.
    BeyondLog,
    /// Memory was refused.
    Memory,
}

impl fmt::Display for ListError {
    ghost use Rattle.std.specs.Prelude.{Some};
    ghost use Rattle.landmarks.specs.Reasons.{list_fault_text};

    ghost output = { λ why. Some (list_fault_text why) };

    fn fmt<W: fmt::Write>(&self, f: &mut fmt::Formatter<W>) -> fmt::Result {
        match self {
            ListError::BadLine(number) => write!(f, "BadLine {number}"),
            ListError::NotFalling(number) => write!(f, "NotFalling {number}"),
            ListError::TooManyActive => f.write_str("TooManyActive"),
            ListError::BeyondLog => f.write_str("BeyondLog"),
            ListError::Memory => f.write_str("Memory"),
        }
    }
}

impl Error for ListError {}

impl From<NoMemory> for ListError {
    ghost use Rattle.std.specs.Prelude.{◌≡◌};
    ghost use Rattle.landmarks.specs.declared.error.ListError.TheVariants.{Memory};

    ghost from_gives = { λ _ e. e ≡ Memory };

    fn from(_refused: NoMemory) -> ListError {
        ListError::Memory
    }
}
