//! What the calls of a journal refuse.

ghost use Rattle.journal_core.specs.declared.error.StartError.TheVariants.{Failed as StartFailed};
ghost use Rattle.journal_core.specs.declared.error.OpenError.TheVariants.{Failed as OpenFailed};
ghost use Rattle.journal_core.specs.declared.error.AppendError.TheVariants.{Failed as AppendFailed};
ghost use Rattle.std.specs.Prelude.{◌≡◌};

use mtc_io::{Failed, Memory};
use std::error::Error;
use std::fmt;

/// A refused call returns the disk.
#[derive(Debug, Drop)]
pub struct Refused<D, E> {
    pub disk: D,
    pub why: E,
}

pub(crate) fn return_rest<D, E>(disk: D, why: E) -> Refused<D, E>
    ensures disk { result.disk ≡ disk }
    ensures why { result.why ≡ why }
{
    Refused { disk, why }
}

/// Why a journal was not started, in the order of the tests.
#[derive(Clone, Copy, Debug, PartialEq, Eq)]
pub enum StartError {
    /// No memory for the journal's buffer.
    Memory,
    /// The disk failed.
    Failed,
    /// The disk holds bytes already.
    NotEmpty,
}

impl fmt::Display for StartError {
    ghost use Rattle.std.specs.Prelude.{Some};
    ghost use Rattle.journal_core.specs.Reasons.{start_fault_text};

    ghost output = { λ why. Some (start_fault_text why) };

    fn fmt<W: fmt::Write>(&self, f: &mut fmt::Formatter<W>) -> fmt::Result {
        match self {
            StartError::Memory => f.write_str("Memory"),
            StartError::Failed => f.write_str("Failed"),
            StartError::NotEmpty => f.write_str("NotEmpty"),
        }
    }
}

impl Error for StartError {}

/// Why a file is not read, or not read on.
#[derive(Clone, Copy, Debug, PartialEq, Eq)]
pub enum OpenError {
    /// The file doesn't begin with the header.
    NotJournal,
    /// The length in the record at this offset is 0 or above 131,072.
    BadLength(u64),
    /// The file ends before the commit byte at this offset, or within the record that begins there.
    CutShort(u64),
    /// The disk failed.
    Failed,
    /// No memory for the journal's buffer.
    Memory,
}

impl fmt::Display for OpenError {
    ghost use Rattle.std.specs.Prelude.{Some};
    ghost use Rattle.journal_core.specs.Reasons.{open_fault_text};

    ghost output = { λ why. Some (open_fault_text why) };

    fn fmt<W: fmt::Write>(&self, f: &mut fmt::Formatter<W>) -> fmt::Result {
        match self {
            OpenError::NotJournal => f.write_str("NotJournal"),
            OpenError::BadLength(offset) => write!(f, "BadLength {offset}"),
            OpenError::CutShort(offset) => write!(f, "CutShort {offset}"),
            OpenError::Failed => f.write_str("Failed"),
            OpenError::Memory => f.write_str("Memory"),
        }
    }
}

impl Error for OpenError {}

/// Why a record was not appended, in the order of the tests.
#[derive(Clone, Copy, Debug, PartialEq, Eq)]
pub enum AppendError {
    /// An earlier append on this value answered `Failed`.
    Broken,
    /// The file would pass 2^33 bytes.
    Full,
    /// The disk failed: the journal holds the old records, or these and the new one, and the caller
    /// has to open it again, over a disk that is opened again. An open file whose sync failed
    /// answers no later call.
    Failed,
}

impl fmt::Display for AppendError {
    ghost use Rattle.std.specs.Prelude.{Some};
    ghost use Rattle.journal_core.specs.Reasons.{append_fault_text};

    ghost output = { λ why. Some (append_fault_text why) };

    fn fmt<W: fmt::Write>(&self, f: &mut fmt::Formatter<W>) -> fmt::Result {
        match self {
            AppendError::Broken => f.write_str("Broken"),
            AppendError::Full => f.write_str("JournalFull"),
            AppendError::Failed => f.write_str("Failed"),
        }
    }
}

impl Error for AppendError {}

/// Why records were not copied to the last one.
#[derive(Clone, Copy, Debug, PartialEq, Eq)]
pub enum CopyError {
    /// The disk failed.
    Read,
    /// The sink failed.
    Write,
}

impl fmt::Display for CopyError {
    ghost use Rattle.std.specs.Prelude.{Some};
    ghost use Rattle.journal_core.specs.Reasons.{copy_fault_text};

    ghost output = { λ why. Some (copy_fault_text why) };

    fn fmt<W: fmt::Write>(&self, f: &mut fmt::Formatter<W>) -> fmt::Result {
        match self {
            CopyError::Read => f.write_str("Read"),
            CopyError::Write => f.write_str("Write"),
        }
    }
}

impl Error for CopyError {}

impl From<Failed> for StartError {
    ghost from_gives = { λ _ e. e ≡ StartFailed };

    fn from(_: Failed) -> Self {
        StartError::Failed
    }
}

impl From<Failed> for OpenError {
    ghost from_gives = { λ _ e. e ≡ OpenFailed };

    fn from(_: Failed) -> Self {
        OpenError::Failed
    }
}

impl From<Failed> for AppendError {
    ghost from_gives = { λ _ e. e ≡ AppendFailed };

    fn from(_: Failed) -> Self {
        AppendError::Failed
    }
}
