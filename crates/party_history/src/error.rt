//! What a history refuses.

use mtc_io::Memory;
use std::error::Error;
use std::fmt;

/// Why a list of steps has no states.
#[derive(Clone, Copy, Debug, PartialEq, Eq)]
pub enum HistoryError {
    /// The step of this number, counted from 0, is not allowed, and each one before it is.
    NotAStep(u64),
    /// Memory was refused.
    Memory,
}

impl fmt::Display for HistoryError {
    ghost use Rattle.std.specs.Prelude.{Some};
    ghost use Rattle.party_history.specs.Reasons.{history_fault_text};

    ghost output = { λ why. Some (history_fault_text why) };

    fn fmt<W: fmt::Write>(&self, f: &mut fmt::Formatter<W>) -> fmt::Result {
        match self {
            HistoryError::NotAStep(number) => write!(f, "NotAStep {number}"),
            HistoryError::Memory => f.write_str("Memory"),
        }
    }
}

impl Error for HistoryError {}

impl From<Memory> for HistoryError {
    ghost use Rattle.std.specs.Prelude.{◌≡◌};
    ghost use Rattle.party_history.specs.declared.error.HistoryError.TheVariants.{Memory};

    ghost from_gives = { λ _ e. e ≡ Memory };

    fn from(_refused: Memory) -> HistoryError {
        HistoryError::Memory
    }
}
