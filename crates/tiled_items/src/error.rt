//! What is refused of a journal of items.

ghost use Rattle.std.specs.Prelude.{◌≡◌};
ghost use Rattle.tiled_items.specs.declared.error.ItemError.TheVariants.{Failed as ItemFailed};
ghost use Rattle.tiled_items.specs.declared.error.ItemError.TheVariants.{Memory as ItemMemory};
ghost use Rattle.tiled_items.specs.declared.error.TiledError.TheVariants.{Append as NotAppended};
ghost use Rattle.tiled_items.specs.declared.error.TiledError.TheVariants.{Failed as TiledFailed};
ghost use Rattle.tiled_items.specs.declared.error.TiledError.TheVariants.{Memory as TiledMemory};

use journal_core::{AppendError, OpenError};
use mtc_io::{Failed, Memory};
use tile_store::TileError;

/// Why a file is not opened. The records are read and tested one by one, and the first fault is
/// answered.
#[derive(Clone, Copy, Debug, PartialEq, Eq)]
pub enum TiledOpenError {
    /// The record of this number, counted from 0, breaks the rules, or there is no record.
    BadRecord(u64),
    /// The tiles of the last size are not adopted.
    Tile(TileError),
    /// The file is not read as a journal. The disk may have failed, or memory was refused.
    Open(OpenError),
}

/// Why an item is not read back.
#[derive(Clone, Copy, Debug, PartialEq, Eq)]
pub enum ItemError {
    /// The disk of the journal failed.
    Failed,
    /// The disk gave other bytes than before.
    Misread,
    /// Memory was refused.
    Memory,
}

impl From<Memory> for ItemError {
    ghost from_gives = { λ _ e. e ≡ ItemMemory };

    fn from(_: Memory) -> Self {
        ItemError::Memory
    }
}

impl From<Failed> for ItemError {
    ghost from_gives = { λ _ e. e ≡ ItemFailed };

    fn from(_: Failed) -> Self {
        ItemError::Failed
    }
}

/// What a call that appends a record refuses, in the order of the tests.
#[derive(Clone, Copy, Debug, PartialEq, Eq)]
pub enum TiledError {
    /// All full tiles are stored.
    NothingNew,
    /// Memory was refused.
    Memory,
    /// The disk of the tiles failed.
    Failed,
    /// The record was not appended.
    Append(AppendError),
}

impl From<Memory> for TiledError {
    ghost from_gives = { λ _ e. e ≡ TiledMemory };

    fn from(_: Memory) -> Self {
        TiledError::Memory
    }
}

impl From<Failed> for TiledError {
    ghost from_gives = { λ _ e. e ≡ TiledFailed };

    fn from(_: Failed) -> Self {
        TiledError::Failed
    }
}

impl From<AppendError> for TiledError {
    ghost from_gives = { λ why e. e ≡ NotAppended why };

    fn from(why: AppendError) -> Self {
        TiledError::Append(why)
    }
}
