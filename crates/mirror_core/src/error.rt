//! What the calls of a mirror refuse.

ghost use Rattle.std.specs.Prelude.{◌≡◌};
ghost use Rattle.mirror_core.specs.Openings.{mirror_open_refusal};
ghost use Rattle.mirror_core.specs.Results.{mirror_id_fault};
ghost use Rattle.mirror_core.specs.declared.error.MirrorError.TheVariants.{Append as NotAppended};
ghost use Rattle.mirror_core.specs.declared.error.MirrorError.TheVariants.{Failed as MirrorFailed};
ghost use Rattle.mirror_core.specs.declared.error.MirrorError.TheVariants.{Memory as MirrorMemory};
ghost use Rattle.mirror_core.specs.declared.error.RecordError.TheVariants.{Unfit};
ghost use Rattle.mirror_core.specs.declared.error.RecordError.TheVariants.{Memory as RecordMemory};

use journal_core::{AppendError, OpenError};
use mtc_io::{Failed, Memory};
use state_journal::StateOpenError;
use std::error::Error;
use std::fmt;
use tile_store::TileError;
use tls_wire::{AnchorBytesError, Short};

/// A refused opening returns both disks.
#[derive(Debug, Drop)]
pub struct MirrorRefused<D, T> {
    pub disk: D,
    pub tiles: T,
    pub why: MirrorOpenError,
}

/// Why a journal isn't opened as a mirror's, by why its records aren't read, and why tiles were not
/// adopted: where a call of their disk failed, the records were read no further.
pub(crate) fn open_refusal(why: StateOpenError, refusal: Option<TileError>) -> MirrorOpenError
    ensures { result ≡ mirror_open_refusal why refusal }
{
    match (why, refusal) {
        (StateOpenError::BadRecord(number), _) => MirrorOpenError::BadRecord(number),
        (StateOpenError::Open(OpenError::Memory), Some(TileError::Failed)) => {
            MirrorOpenError::Tile(TileError::Failed)
        }
        (StateOpenError::Open(why), _) => MirrorOpenError::Open(why),
    }
}

/// Why a file is not opened as a mirror. The records are read and tested one by one, and the first
/// fault is answered.
#[derive(Clone, Copy, Debug, PartialEq, Eq)]
pub enum MirrorOpenError {
    /// The record of this number, counted from 0, breaks the rules of a mirror's records, or there
    /// is no record.
    BadRecord(u64),
    /// The tiles of the last size are not adopted.
    Tile(TileError),
    /// The file is not read as a journal. The disk may have failed, or memory was refused.
    Open(OpenError),
}

impl fmt::Display for MirrorOpenError {
    ghost use Rattle.std.specs.Prelude.{Some};
    ghost use Rattle.mirror_core.specs.Reasons.{mirror_open_text};

    ghost output = { λ why. Some (mirror_open_text why) };

    fn fmt<W: fmt::Write>(&self, f: &mut fmt::Formatter<W>) -> fmt::Result {
        match self {
            MirrorOpenError::BadRecord(number) => write!(f, "BadRecord {number}"),
            MirrorOpenError::Tile(why) => why.fmt(f),
            MirrorOpenError::Open(why) => why.fmt(f),
        }
    }
}

impl Error for MirrorOpenError {}

/// What a mirror refuses. Each call says in which order it tests.
#[derive(Clone, Copy, Debug, PartialEq, Eq)]
pub enum MirrorError {
    /// The item of this number, counted from 0, is another one than that of the mirror.
    Differs(u64),
    /// The items that are given are no more than those of the mirror, or its full tiles are stored.
    NothingNew,
    /// The first new item, which has this number, has more than 65,535 bytes.
    TooLarge(u64),
    /// The mirror has no item at this index, but so many.
    Beyond(u64),
    /// A disk failed: that of the journal for items, and that of the tiles for tiles.
    Failed,
    /// The record was not appended.
    Append(AppendError),
    /// Memory was refused.
    Memory,
}

impl fmt::Display for MirrorError {
    ghost use Rattle.std.specs.Prelude.{Some};
    ghost use Rattle.mirror_core.specs.Reasons.{mirror_fault_text};

    ghost output = { λ why. Some (mirror_fault_text why) };

    fn fmt<W: fmt::Write>(&self, f: &mut fmt::Formatter<W>) -> fmt::Result {
        match self {
            MirrorError::Differs(number) => write!(f, "Differs {number}"),
            MirrorError::NothingNew => f.write_str("NothingNew"),
            MirrorError::TooLarge(size) => write!(f, "TooLarge {size}"),
            MirrorError::Beyond(size) => write!(f, "Beyond {size}"),
            MirrorError::Failed => f.write_str("Failed"),
            MirrorError::Append(why) => why.fmt(f),
            MirrorError::Memory => f.write_str("Memory"),
        }
    }
}

impl Error for MirrorError {}

/// Why a record is not taken into a mirror.
#[derive(Clone, Copy, Debug, PartialEq, Eq)]
pub(crate) enum RecordError {
    /// It breaks the rules.
    Unfit,
    /// Memory was refused.
    Memory,
}

impl From<Memory> for MirrorError {
    ghost from_gives = { λ _ e. e ≡ MirrorMemory };

    fn from(_: Memory) -> Self {
        MirrorError::Memory
    }
}

impl From<Failed> for MirrorError {
    ghost from_gives = { λ _ e. e ≡ MirrorFailed };

    fn from(_: Failed) -> Self {
        MirrorError::Failed
    }
}

impl From<AppendError> for MirrorError {
    ghost from_gives = { λ why e. e ≡ NotAppended why };

    fn from(why: AppendError) -> Self {
        MirrorError::Append(why)
    }
}

impl From<Memory> for RecordError {
    ghost from_gives = { λ _ e. e ≡ RecordMemory };

    fn from(_: Memory) -> Self {
        RecordError::Memory
    }
}

impl From<Short> for RecordError {
    ghost from_gives = { λ _ e. e ≡ Unfit };

    fn from(_: Short) -> Self {
        RecordError::Unfit
    }
}

impl From<AnchorBytesError> for RecordError {
    ghost from_gives = { λ fault e. e ≡ mirror_id_fault fault };

    fn from(fault: AnchorBytesError) -> Self {
        match fault {
            AnchorBytesError::Memory => RecordError::Memory,
            _ => RecordError::Unfit,
        }
    }
}
