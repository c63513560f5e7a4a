//! Why a request is not issued.

ghost use Rattle.std.specs.Prelude.{◌≡◌};
ghost use Rattle.issuance_log.specs.declared.error.LogError.TheVariants.{Memory as LogMemory};
ghost use Rattle.authority_core.specs.declared.issuing.error.IssueError.TheVariants.{Log as OfLog};

use issuance_log::LogError;
use mtc_io::Memory;
use std::error::Error;
use std::fmt;

/// Why a request is not issued.
#[derive(Clone, Copy, Debug, PartialEq, Eq)]
pub enum IssueError {
    /// The log refuses the entry, or memory was refused before.
    Log(LogError),
}

impl fmt::Display for IssueError {
    ghost use Rattle.std.specs.Prelude.{Some};
    ghost use Rattle.authority_core.specs.Reasons.{issue_fault_text};

    ghost output = { λ why. Some (issue_fault_text why) };

    fn fmt<W: fmt::Write>(&self, f: &mut fmt::Formatter<W>) -> fmt::Result {
        match self {
            IssueError::Log(why) => why.fmt(f),
        }
    }
}

impl Error for IssueError {}

impl From<LogError> for IssueError {
    ghost from_gives = { λ why e. e ≡ OfLog why };

    fn from(why: LogError) -> IssueError {
        IssueError::Log(why)
    }
}

impl From<Memory> for IssueError {
    ghost from_gives = { λ _ e. e ≡ OfLog LogMemory };

    fn from(_refused: Memory) -> IssueError {
        IssueError::Log(LogError::Memory)
    }
}
