//! Why no certificate is written.

ghost use Rattle.std.specs.Prelude.{◌≡◌};
ghost use Rattle.authority_core.specs.Several.{several_error};
ghost use Rattle.authority_core.specs.declared.writing.error.SeveralError.TheVariants.{Memory as NoMemory};
ghost use Rattle.authority_core.specs.declared.writing.error.WriteError.TheVariants.{Memory as WriteMemory};

use mtc_io::Memory;
use std::error::Error;
use std::fmt;

/// Why no certificate is written, in the order of the tests. [`cert`](crate::cert) never answers
/// `NotCovered`, and [`light_cert`](crate::light_cert) never `BadSubtree` to `Beyond` or
/// `TooManySignatures`. Of the last three the one that comes first is answered.
#[derive(Clone, Copy, Debug, PartialEq, Eq)]
pub enum WriteError {
    /// The log has no entry at this index.
    NoSuchEntry,
    /// The entry is the null entry, which is no certificate's.
    NullEntry,
    /// The interval is no subtree.
    BadSubtree,
    /// The index lies outside of the interval.
    Outside,
    /// The interval ends above the size of the log, which the variant holds.
    Beyond(u64),
    /// No active landmark covers the entry.
    NotCovered,
    /// The signatures have more than 65,535 bytes.
    TooManySignatures,
    /// The disk of the journal failed, from which the entry is read.
    JournalFailed,
    /// The disk of the tiles failed, from which nodes are read.
    TilesFailed,
    /// Memory was refused.
    Memory,
}

impl fmt::Display for WriteError {
    ghost use Rattle.std.specs.Prelude.{Some};
    ghost use Rattle.authority_core.specs.Reasons.{write_fault_text};

    ghost output = { λ why. Some (write_fault_text why) };

    fn fmt<W: fmt::Write>(&self, f: &mut fmt::Formatter<W>) -> fmt::Result {
        match self {
            WriteError::NoSuchEntry => f.write_str("NoSuchEntry"),
            WriteError::NullEntry => f.write_str("NullEntry"),
            WriteError::BadSubtree => f.write_str("BadSubtree"),
            WriteError::Outside => f.write_str("Outside"),
            WriteError::Beyond(size) => write!(f, "Beyond {size}"),
            WriteError::NotCovered => f.write_str("NotCovered"),
            WriteError::TooManySignatures => f.write_str("TooManySignatures"),
            WriteError::JournalFailed => f.write_str("Failed"),
            WriteError::TilesFailed => f.write_str("Failed"),
            WriteError::Memory => f.write_str("Memory"),
        }
    }
}

impl Error for WriteError {}

impl From<Memory> for WriteError {
    ghost from_gives = { λ _ e. e ≡ WriteMemory };

    fn from(_refused: Memory) -> WriteError {
        WriteError::Memory
    }
}

/// Why no certificates of several entries are written, in the order of the tests. Of the last three
/// the one that comes first is answered.
#[derive(Clone, Copy, Debug, PartialEq, Eq)]
pub enum SeveralError {
    /// The first index isn't below the last one.
    NothingNew,
    /// The certificate of the entry at this index is refused.
    OfEntry(WriteError, u64),
    /// The disk of the journal failed.
    JournalFailed,
    /// The disk of the tiles failed.
    TilesFailed,
    /// Memory was refused.
    Memory,
}

/// Why several are not written, by why the one of the entry at an index is not.
pub(crate) fn several_error(why: WriteError, index: u64) -> SeveralError
    ensures { result ≡ several_error why index }
{
    match why {
        WriteError::JournalFailed => SeveralError::JournalFailed,
        WriteError::TilesFailed => SeveralError::TilesFailed,
        WriteError::Memory => SeveralError::Memory,
        refused => SeveralError::OfEntry(refused, index),
    }
}

impl fmt::Display for SeveralError {
    ghost use Rattle.std.specs.Prelude.{Some};
    ghost use Rattle.authority_core.specs.Reasons.{several_fault_text};

    ghost output = { λ why. Some (several_fault_text why) };

    fn fmt<W: fmt::Write>(&self, f: &mut fmt::Formatter<W>) -> fmt::Result {
        match self {
            SeveralError::NothingNew => f.write_str("NothingNew"),
            SeveralError::OfEntry(why, index) => write!(f, "{why} {index}"),
            SeveralError::JournalFailed => f.write_str("Failed"),
            SeveralError::TilesFailed => f.write_str("Failed"),
            SeveralError::Memory => f.write_str("Memory"),
        }
    }
}

impl Error for SeveralError {}

impl From<Memory> for SeveralError {
    ghost from_gives = { λ _ e. e ≡ NoMemory };

    fn from(_refused: Memory) -> SeveralError {
        SeveralError::Memory
    }
}
