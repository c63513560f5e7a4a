//! What the calls of a log refuse.

ghost use Rattle.std.specs.Prelude.{◌≡◌};
ghost use Rattle.issuance_log.specs.declared.error.LogError.TheVariants.{Append as NotAppended};
ghost use Rattle.issuance_log.specs.declared.error.LogError.TheVariants.{Failed as LogFailed};
ghost use Rattle.issuance_log.specs.declared.error.LogError.TheVariants.{Memory as LogMemory};
ghost use Rattle.issuance_log.specs.declared.error.RecordError.TheVariants.{Unfit};
ghost use Rattle.issuance_log.specs.declared.error.RecordError.TheVariants.{Memory as RecordMemory};
ghost use Rattle.issuance_log.specs.Faults.{log_id_fault, open_refusal};

use journal_core::{AppendError, OpenError};
use mtc_io::{Failed, Memory};
use state_journal::StateOpenError;
use std::error::Error;
use std::fmt;
use tile_store::TileError;
use tls_wire::{AnchorBytesError, Short};

/// A refused opening returns both disks.
#[derive(Debug, Drop)]
pub struct LogRefused<D, T> {
    pub disk: D,
    pub tiles: T,
    pub why: LogOpenError,
}

/// Why a journal isn't opened as a log's, by why its records aren't read, and why tiles were not
/// adopted: where a call of their disk failed, the records were read no further.
pub(crate) fn open_refusal(why: StateOpenError, refusal: Option<TileError>) -> LogOpenError
    ensures { result ≡ open_refusal why refusal }
{
    match (why, refusal) {
        (StateOpenError::BadRecord(number), _) => LogOpenError::BadRecord(number),
        (StateOpenError::Open(OpenError::Memory), Some(TileError::Failed)) => {
            LogOpenError::Tile(TileError::Failed)
        }
        (StateOpenError::Open(why), _) => LogOpenError::Open(why),
    }
}

/// Why a file is not opened as a log. The records are read and tested one by one, and the first
/// fault is answered.
#[derive(Clone, Copy, Debug, PartialEq, Eq)]
pub enum LogOpenError {
    /// The record of this number, counted from 0, breaks the rules of a log's records, or there is
    /// no record.
    BadRecord(u64),
    /// The tiles of the last size are not adopted.
    Tile(TileError),
    /// The file is not read as a journal. The disk may have failed, or memory was refused.
    Open(OpenError),
}

impl fmt::Display for LogOpenError {
    ghost use Rattle.std.specs.Prelude.{Some};
    ghost use Rattle.issuance_log.specs.Reasons.{log_open_text};

    ghost output = { λ why. Some (log_open_text why) };

    fn fmt<W: fmt::Write>(&self, f: &mut fmt::Formatter<W>) -> fmt::Result {
        match self {
            LogOpenError::BadRecord(number) => write!(f, "BadRecord {number}"),
            LogOpenError::Tile(why) => why.fmt(f),
            LogOpenError::Open(why) => why.fmt(f),
        }
    }
}

impl Error for LogOpenError {}

/// What a log refuses. Each call says in which order it tests.
#[derive(Clone, Copy, Debug, PartialEq, Eq)]
pub enum LogError {
    /// The log has as many entries as its limit allows.
    Full,
    /// The entry and its key have more than 65,535 bytes together.
    TooLarge,
    /// The items are more than one record holds: so many of the first ones fit it.
    TooMany(u64),
    /// The log has no entry at this index.
    NoSuchEntry,
    /// The last landmark has the size of the log, or its full tiles are stored.
    NothingNew,
    /// The log was switched: from this index on entries name the algorithm of their key.
    AlreadySwitched(u64),
    /// A disk failed: that of the journal for an entry, and that of the tiles for tiles.
    Failed,
    /// The record was not appended.
    Append(AppendError),
    /// Memory was refused.
    Memory,
}

impl fmt::Display for LogError {
    ghost use Rattle.std.specs.Prelude.{Some};
    ghost use Rattle.issuance_log.specs.Reasons.{log_fault_text};

    ghost output = { λ why. Some (log_fault_text why) };

    fn fmt<W: fmt::Write>(&self, f: &mut fmt::Formatter<W>) -> fmt::Result {
        match self {
            LogError::Full => f.write_str("Full"),
            LogError::TooLarge => f.write_str("TooLarge"),
            LogError::TooMany(count) => write!(f, "TooMany {count}"),
            LogError::NoSuchEntry => f.write_str("NoSuchEntry"),
            LogError::NothingNew => f.write_str("NothingNew"),
            LogError::AlreadySwitched(index) => write!(f, "AlreadySwitched {index}"),
            LogError::Failed => f.write_str("Failed"),
            LogError::Append(why) => why.fmt(f),
            LogError::Memory => f.write_str("Memory"),
        }
    }
}

impl Error for LogError {}

/// Why a record is not taken into a log.
#[derive(Clone, Copy, Debug, PartialEq, Eq)]
pub(crate) enum RecordError {
    /// It breaks the rules.
    Unfit,
    /// Memory was refused.
    Memory,
}

impl From<Memory> for LogError {
    ghost from_gives = { λ _ e. e ≡ LogMemory };

    fn from(_: Memory) -> Self {
        LogError::Memory
    }
}

impl From<Failed> for LogError {
    ghost from_gives = { λ _ e. e ≡ LogFailed };

    fn from(_: Failed) -> Self {
        LogError::Failed
    }
}

impl From<AppendError> for LogError {
    ghost from_gives = { λ why e. e ≡ NotAppended why };

    fn from(why: AppendError) -> Self {
        LogError::Append(why)
    }
}

impl From<Memory> for RecordError {
    ghost from_gives = { λ _ e. e ≡ RecordMemory };

    fn from(_: Memory) -> Self {
        RecordError::Memory
    }
}

impl From<Short> for RecordError {
    ghost from_gives = { λ _ e. e ≡ Unfit };

    fn from(_: Short) -> Self {
        RecordError::Unfit
    }
}

impl From<AnchorBytesError> for RecordError {
    ghost from_gives = { λ fault e. e ≡ log_id_fault fault };

    fn from(fault: AnchorBytesError) -> Self {
        match fault {
            AnchorBytesError::Memory => RecordError::Memory,
            _ => RecordError::Unfit,
        }
    }
}
